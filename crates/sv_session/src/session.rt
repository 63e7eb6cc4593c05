// Sessions.
ghost use Rattle.std.specs.Prelude.{◌≡◌, IfOk, OnOk, OnErr};
ghost use Rattle.sv_document.specs.Numbers.{numbered, unnumbered};
ghost use Rattle.sv_document.specs.Printed.{html};
ghost use Rattle.sv_flush.specs.Page.{blank};
ghost use Rattle.sv_page.specs.Current.{IsCurrent};
ghost use Rattle.sv_session.specs.Plays.{Mounts, Turns, IsShown, Keeps, told, program_of, shown_numbers};
ghost use Rattle.sv_session.specs.Reached.{IsReached};
ghost use Rattle.sv_session.specs.Ready.{IsReady};
ghost use Rattle.sv_states.specs.Sound.{IsSound};
ghost use Rattle.sv_within.specs.Runnable.{IsRunnable};

use crate::stage::{Stage, TurnError, Turned};
use std::alloc::Global;
use sv_base::{NoMemory, Text};
use sv_code::Program;
use sv_document::{Node, Nodes, Numbers, print};
use sv_events::Event;
use sv_flush::{Machine, Page};
use sv_fresh::redraw;
use sv_page::{first_turn, next_turn};

/// A program on a page: what scripts left, what is shown and how that is numbered, and how far the page is.
#[derive(Drop)]
pub struct Session<'a> {
    machine: Machine<'a>,
    page: Page,
    nodes: Nodes,
    numbers: Numbers,
    stage: Stage,
}

impl<'a> Session<'a> {
    /// A session of a compiled program, whose page is still empty.
    pub fn begin(alloc: Global, program: &'a Program) -> Result<Session<'a>, NoMemory>
        requires { IsRunnable program.now }
        ensures ready { IfOk result IsReady }
        ensures program { IfOk result (λ session. program_of session ≡ program.now) }
        ensures page { IfOk result (λ session. session.page ≡ blank) }
        ensures numbers { IfOk result (λ session. session.numbers ≡ unnumbered) }
        ensures stage { IfOk result (λ session. session.stage ≡ Stage.New) }
    {
        Ok(Session {
            machine: Machine { alloc, program },
            page: Page::new(alloc)?,
            nodes: Nodes::new(alloc),
            numbers: Numbers::new(alloc),
            stage: Stage::New,
        })
    }

    /// Mounts the page: module files run, the root is made with all below it, and a flush follows. What is shown then is drawn of what patches
    /// recorded, and is the fresh page of the present states. After a refusal the session is stopped; `Stopped` comes exactly where something was
    /// on the page already, and nothing is done. Whatever comes, the states are sound; where the page is mounted, it is current.
    pub fn mount(&mut self) -> Result<Turned, TurnError>
        requires { IsReady self.old }
        ensures ready { IsReady self.new }
        ensures mounts { Mounts result self.old self.new }
        ensures sound { IsSound self.new.page.world.states }
        ensures current { OnOk result (IsCurrent (program_of self.old) self.new.page) }
    {
        let result = self.play_first();
        self.page.world.states.facts();
        result
    }

    fn play_first(&mut self) -> Result<Turned, TurnError>
        requires { IsReady self.old }
        ensures ready { IsReady self.new }
        ensures mounts { Mounts result self.old self.new }
        ensures current { OnOk result (IsCurrent (program_of self.old) self.new.page) }
    {
        if self.stage != Stage::New {
            return Err(TurnError::Stopped);
        }
        self.stage = Stage::Stopped;
        let target = first_turn(&self.machine, &mut self.page)?;
        Ok(self.show(target)?)
    }

    /// An event comes to the page: what it does, and a flush where there was an element for it. What is shown then is drawn of what patches
    /// recorded, and is the fresh page of the present states. After a refusal the session is stopped; `Stopped` comes exactly where the page
    /// isn't running, and nothing is done. Whatever comes, the states are sound; once the turn has ended, the page is current.
    pub fn turn(&mut self, event: &Event) -> Result<Turned, TurnError>
        requires { IsReady self.old }
        ensures ready { IsReady self.new }
        ensures turns { Turns result self.old self.new event.now }
        ensures sound { IsSound self.new.page.world.states }
        ensures current { OnOk result (IsCurrent (program_of self.old) self.new.page) }
    {
        let result = self.play_next(event);
        self.page.world.states.facts();
        result
    }

    fn play_next(&mut self, event: &Event) -> Result<Turned, TurnError>
        requires { IsReady self.old }
        ensures ready { IsReady self.new }
        ensures turns { Turns result self.old self.new event.now }
        ensures current { OnOk result (IsCurrent (program_of self.old) self.new.page) }
    {
        if self.stage != Stage::Running {
            return Err(TurnError::Stopped);
        }
        self.stage = Stage::Stopped;
        let target = next_turn(&self.machine, &mut self.page, self.nodes.as_slice(), event)?;
        Ok(self.show(target)?)
    }

    // Draws what the page shows now, for the next event.
    fn show(&mut self, target: bool) -> Result<Turned, NoMemory>
        requires runnable { IsRunnable (program_of self.old) }
        requires reached { IsReached (program_of self.old) self.old.page }
        ensures shown { OnOk result (IsShown self.new) }
        ensures told { IfOk result (λ turned. turned ≡ told target self.old.page) }
        ensures stage { OnErr result (self.new.stage ≡ self.old.stage) }
        ensures page { self.new.page ≡ self.old.page }
        ensures rest { Keeps self.old self.new }
    {
        let machine = &self.machine;
        let page = &self.page;
        let subscriptions = page.world.subscriptions()?;
        self.nodes = redraw(machine.alloc, machine.program, &page.world, &page.showing)?;
        self.stage = Stage::Running;
        Ok(Turned {
            target,
            evaluations: page.tally.count,
            instances: page.world.instances(),
            subscriptions,
        })
    }

    /// Numbers what is shown: in document order each element and each text that has no number gets the next one, and the others keep
    /// theirs. A place that stays from turn to turn keeps its number, and no number is given twice.
    pub fn number(&mut self) -> Result<(), NoMemory>
        ensures ok { OnOk result (self.new ≡ record self.old { numbers = numbered self.old.nodes self.old.numbers }) }
        ensures err { OnErr result (self.new ≡ self.old) }
    {
        self.numbers.number(self.nodes.as_slice())
    }

    /// The program.
    pub fn program(&self) -> &Program
        ensures { result.now ≡ program_of self.now }
    {
        self.machine.program
    }

    /// How far the page is.
    pub fn stage(&self) -> Stage
        ensures { result ≡ self.now.stage }
    {
        self.stage
    }

    /// What is shown, as it was drawn after the last turn.
    pub fn nodes(&self) -> &[Node]
        ensures { result.now ≡ self.now.nodes }
    {
        self.nodes.as_slice()
    }

    /// What scripts logged in the last turn that was played, also in one that was refused.
    pub fn log(&self) -> &[Text]
        ensures { result.now ≡ self.now.page.world.turn.log }
    {
        self.page.world.turn.log()
    }

    /// The text of the page as it was shown last, with the numbers that were given or without.
    pub fn html(&self, numbers: bool) -> Result<Vec<u8>, NoMemory>
        ensures { IfOk result (λ text. text.items ≡ html (shown_numbers numbers self.now.numbers) self.now.nodes) }
    {
        let numbers = if numbers { Some(&self.numbers) } else { None };
        print(self.machine.alloc, self.nodes.as_slice(), numbers)
    }
}
