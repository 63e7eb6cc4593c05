// Names and places in words.
use crate::unanswered::Unanswered;
use std::alloc::{AllocError, Global};
use sv_ast::Ref;
use sv_base::{Name, Names, Span};
use sv_rows::push_gap;

/// A name with its text, and `view` for the one that has none.
pub fn text_of<'a>(names: &'a Names, name: Name) -> &'a str {
    names.text(name).unwrap_or("view")
}

/// Appends a name that is referred to: that of a store stands behind `$`.
pub fn push_ref(line: &mut String, names: &Names, of: Ref) -> Result<(), AllocError> {
    match of {
        Ref::Plain(name) => line.push_str(text_of(names, name)),
        Ref::Store(name) => {
            line.push_str("$")?;
            line.push_str(text_of(names, name))
        }
    }
}

/// Names with a space between.
pub fn listed(alloc: Global, names: &Names, list: &[Ref]) -> Result<String, Unanswered> {
    let mut line = String::new(alloc);
    for name in list {
        push_gap(&mut line, " ")?;
        push_ref(&mut line, names, *name)?;
    }
    Ok(line)
}

/// The name that a word stands for, which is that of a store behind `$`.
pub fn ref_of(names: &mut Names, word: &str) -> Result<Ref, Unanswered> {
    match word.strip_prefix('$') {
        Some(word) => Ok(Ref::Store(names.intern(word)?)),
        None => Ok(Ref::Plain(names.intern(word)?)),
    }
}

/// What stands at a place of a text.
pub fn text_at(text: &str, at: Span) -> &str {
    text.get(at.from as usize..at.to as usize).unwrap_or("?")
}

/// Appends what stands at some places of a text, with `;` behind each.
pub fn push_found(line: &mut String, text: &str, places: &[Span]) -> Result<(), AllocError> {
    for place in places {
        line.push_str(text_at(text, *place))?;
        line.push_str(";")?;
    }
    Ok(())
}

/// Where a place begins and ends.
pub fn ends(alloc: Global, at: Span) -> Result<String, AllocError> {
    format!(in alloc; "{}..{}", at.from, at.to)
}

/// Appends where a place begins and ends.
pub fn push_place(line: &mut String, at: Span) -> Result<(), AllocError> {
    write!(line, " at {}..{}", at.from, at.to)
}
