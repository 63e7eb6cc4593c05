// What was found so far.
ghost use Rattle.std.specs.Prelude.{◌≡◌, [], ◌∷◌, ◌++◌, IfOk, OnOk, false};
ghost use Rattle.sv_names.specs.Distinct.{firsts};
ghost use Rattle.sv_scopes.specs.Files.{file};
ghost use Rattle.sv_scopes.specs.Parts.{Finds, nothing, using_name, declaring, names_of, is_tag, is_of, handed, closed};

use crate::scope::{Declared, FileScopes, Role, Scope, Use};
use crate::top::settle;
use std::alloc::Global;
use std::marker::Model;
use std::mem;
use sv_ast::Ref;
use sv_base::NoMemory;
use sv_list::Items;
use sv_names::Distinct;

/// What was found so far in the scope that is looked at, and the scopes that are closed. A clause sees it as parts.
#[derive(Drop)]
pub(crate) struct Found {
    alloc: Global,
    declares: Items<Declared>,
    uses: Items<Use>,
    scopes: Items<Scope>,
}

impl Model for Found {
    ghost use Rattle.sv_scopes.specs.Parts.{Parts};

    ghost Value = { Parts };

    ghost view = { λ f. record { declares = f.declares; uses = f.uses; scopes = f.scopes } };
}

/// What was found in the scope around one that is looked at.
#[derive(Drop)]
pub(crate) struct Around {
    declares: Items<Declared>,
    uses: Items<Use>,
}

impl Found {
    /// Nothing so far.
    pub(crate) fn new(alloc: Global) -> Found
        ensures { result ≡ nothing }
    {
        Found {
            alloc,
            declares: Items::new(alloc),
            uses: Items::new(alloc),
            scopes: Items::new(alloc),
        }
    }

    /// Notes a use.
    pub(crate) fn note(&mut self, found: Use) -> Result<(), NoMemory>
        ensures { OnOk result (Finds self.old self.new (using_name found)) }
    {
        self.uses.push(found)
    }

    /// Notes that a name is declared.
    pub(crate) fn declare(&mut self, name: Declared) -> Result<(), NoMemory>
        ensures { OnOk result (Finds self.old self.new (declaring (name ∷ []))) }
    {
        self.declares.push(name)
    }

    /// Opens a scope.
    pub(crate) fn enter(&mut self) -> Around
        ensures around { result ≡ record { declares = self.old.declares; uses = self.old.uses } }
        ensures inside { self.new ≡ record { declares = []; uses = []; scopes = self.old.scopes } }
    {
        let declares = mem::replace(&mut self.declares, Items::new(self.alloc));
        let uses = mem::replace(&mut self.uses, Items::new(self.alloc));
        Around { declares, uses }
    }

    /// Closes the scope that was opened last, which an arrow may make, and goes on in the one around it.
    #[tactic(auto, unfolding(crate::specs::Parts::closed))]
    pub(crate) fn leave(&mut self, around: Around, is_arrow: bool) -> Result<(), NoMemory>
        ensures { OnOk result (Finds (record { declares = around.declares; uses = around.uses; scopes = [] }) self.new (closed is_arrow self.old)) }
    {
        let declares = mem::replace(&mut self.declares, around.declares);
        let uses = mem::replace(&mut self.uses, around.uses);
        hand_on(
            self.alloc,
            &mut self.uses,
            declares.as_slice(),
            uses.as_slice(),
            is_arrow,
        )?;
        self.scopes.push(Scope { declares, uses })?;
        Ok(())
    }
}

impl Found {
    /// The scopes of the file, of which the top level is what is left.
    pub(crate) fn into_file(self) -> Result<FileScopes, NoMemory>
        ensures { IfOk result (λ scopes. scopes ≡ file self) }
    {
        let Found {
            alloc,
            declares,
            uses,
            scopes,
        } = self;
        let declares = settle(alloc, declares.as_slice())?;
        let top = Scope { declares, uses };
        Ok(FileScopes {
            inside: scopes,
            top,
        })
    }
}

/// The default content of a component, so far.
#[derive(Drop)]
pub(crate) struct Content {
    declares: Items<Declared>,
    own: Distinct,
    uses: Items<Use>,
}

impl Found {
    /// Begins the default content of a component, whose names are those that were declared since the scope was opened, and
    /// goes on around it.
    pub(crate) fn begin_content(&mut self, around: Around) -> Result<Content, NoMemory>
        ensures found { OnOk result (self.new ≡ record { declares = around.declares; uses = around.uses; scopes = self.old.scopes }) }
        ensures content { IfOk result (λ content. content ≡ record { declares = self.old.declares; own = firsts (names_of self.old.declares); uses = [] }) }
    {
        let declares = mem::replace(&mut self.declares, around.declares);
        self.uses = around.uses;
        let own = own_names(self.alloc, declares.as_slice())?;
        Ok(Content {
            declares,
            own,
            uses: Items::new(self.alloc),
        })
    }

    /// Puts what was used since the scope was opened into the default content of a component, and goes on around it.
    pub(crate) fn share(&mut self, around: Around, content: &mut Content) -> Result<(), NoMemory>
        ensures found { OnOk result (Finds (record { declares = around.declares; uses = around.uses; scopes = [] }) self.new (record { declares = []; uses = handed false content.old.own self.old.uses; scopes = self.old.scopes })) }
        ensures content { OnOk result (content.new ≡ record content.old { uses = content.old.uses ++ self.old.uses }) }
    {
        let uses = mem::replace(&mut self.uses, around.uses);
        self.declares = around.declares;
        hand_on_others(&mut self.uses, uses.as_slice(), &content.own, false)?;
        content.uses.extend_from_slice(uses.as_slice())
    }

    /// Closes the default content of a component.
    pub(crate) fn end_content(&mut self, content: Content) -> Result<(), NoMemory>
        ensures { OnOk result (Finds self.old self.new (record { declares = []; uses = []; scopes = record { declares = content.declares; uses = content.uses } ∷ [] })) }
    {
        let Content {
            declares,
            own,
            uses,
        } = content;
        drop(own);
        self.scopes.push(Scope { declares, uses })?;
        Ok(())
    }
}

// The names that are declared.
fn own_names(alloc: Global, declares: &[Declared]) -> Result<Distinct, NoMemory>
    ensures { IfOk result (λ own. own ≡ firsts (names_of declares.now)) }
{
    let mut own = Distinct::new(alloc);
    for declared in declares {
        own.add(Ref::Plain(declared.name))?;
    }
    Ok(own)
}

// Whether a use is of one of some names.
fn is_of(names: &Distinct, found: &Use) -> bool
    ensures { result ≡ is_of names.now found.now }
{
    found.role != Role::Tag && names.has(found.name)
}

// Notes what is used in a scope and isn't declared there, around it. An arrow may make the scope.
#[tactic(auto, using(crate::proofs::Hiding::handed_firsts))]
fn hand_on(
    alloc: Global,
    around: &mut Items<Use>,
    declares: &[Declared],
    uses: &[Use],
    is_arrow: bool,
) -> Result<(), NoMemory>
    ensures { OnOk result (around.new ≡ around.old ++ handed is_arrow (names_of declares.now) uses.now) }
{
    let own = own_names(alloc, declares)?;
    hand_on_others(around, uses, &own, is_arrow)
}

// Notes the uses of other names than a scope's own around it. An arrow may make the scope.
fn hand_on_others(
    around: &mut Items<Use>,
    uses: &[Use],
    own: &Distinct,
    is_arrow: bool,
) -> Result<(), NoMemory>
    ensures { OnOk result (around.new ≡ around.old ++ handed is_arrow own.now uses.now) }
{
    for found in uses {
        if !is_of(own, found) {
            around.push(Use {
                in_arrow: is_arrow || found.in_arrow,
                ..*found
            })?;
        }
    }
    Ok(())
}
