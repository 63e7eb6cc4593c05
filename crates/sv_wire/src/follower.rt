// A page that follows a stream.
ghost use Rattle.std.specs.Prelude.{◌≡◌, true, false, Err, IfOk, OnOk, OnErr};
ghost use Rattle.sv_tokens.specs.Token.{Page as Tokens};
ghost use Rattle.sv_tokens.specs.Seen.{view_of};
ghost use Rattle.sv_tokens.specs.Replay.{replay};
ghost use Rattle.sv_html.specs.Html.{html};
ghost use Rattle.sv_watch.specs.Fits.{fits};
ghost use Rattle.sv_watch.specs.Mirror.{blank, page_html};

use std::alloc::Global;
use std::marker::Model;
use sv_base::NoMemory;
use sv_tokens::Change;
use sv_watch::Replica;

/// Why a change is not brought to a page.
#[derive(Clone, Copy, Debug, PartialEq, Eq)]
pub enum FollowError {
    /// It doesn't fit the page.
    Unfit,
    NoMemory,
}

impl From<NoMemory> for FollowError {
    ghost use Rattle.std.specs.Prelude.{◌≡◌};
    ghost use Rattle.sv_wire.specs.declared.follower.FollowError.TheVariants as errors;

    ghost from_gives = { λ _ error. error ≡ errors.NoMemory };

    fn from(_: NoMemory) -> FollowError {
        FollowError::NoMemory
    }
}

/// A page that follows the changes of a stream, each of which has to fit it. A clause sees it as watchers see a page.
#[derive(Drop)]
pub struct Follower {
    alloc: Global,
    replica: Replica,
}

impl Model for Follower {
    ghost use Rattle.sv_tokens.specs.Seen.{View};

    ghost Value = { View };

    ghost view = { λ follower. follower.replica };
}

impl Follower {
    /// The page with nothing on it.
    pub fn new(alloc: Global) -> Result<Follower, NoMemory>
        ensures { IfOk result (λ follower. follower ≡ blank) }
    {
        let replica = Replica::new(alloc)?;
        Ok(Follower { alloc, replica })
    }

    /// Brings a change to the page. One that doesn't fit leaves the page as it was and is `Unfit`, and none else is. A page that finds
    /// no memory stays as it was.
    pub fn apply(&mut self, change: &Change) -> Result<(), FollowError>
        ensures page { OnOk result (self.new ≡ replay change.now self.old) }
        ensures fits { OnOk result (fits change.now self.old ≡ true) }
        ensures unfit { result ≡ Err FollowError.Unfit → fits change.now self.old ≡ false }
        ensures only { fits change.now self.old ≡ false → result ≡ Err FollowError.Unfit }
        ensures kept { OnErr result (self.new ≡ self.old) }
    {
        if !self.replica.fits(change) {
            return Err(FollowError::Unfit);
        }
        Ok(self.replica.apply(change)?)
    }

    /// The text of the page: of any page that is seen so.
    pub fn html(&self) -> Result<Vec<u8>, NoMemory>
        ensures text { IfOk result (λ bytes. bytes.items ≡ page_html self.now.tokens) }
        ensures page { IfOk result (λ bytes. (page : Tokens) → view_of page ≡ self.now → bytes.items ≡ html false page.tokens) }
    {
        self.replica.html(self.alloc)
    }
}
