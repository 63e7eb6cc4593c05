// What a patch keeps as it was.
ghost use Rattle.std.specs.Prelude.{◌≡◌, option_copied, IfOk};

use crate::shape::{AttrState, AttrStates, KeyState, SlotProp, SlotProps, TagTexts, Texts};
use std::alloc::Global;
use sv_base::{NoMemory, Text};
use sv_list::Items;
use sv_tokens::Attr;

/// The same texts, whose bytes are not copied.
pub fn share_texts(alloc: Global, texts: &[Text]) -> Result<Texts, NoMemory>
    ensures { IfOk result (λ same. same ≡ texts.now) }
{
    let mut same = Items::new(alloc);
    for text in texts {
        same.push(text.share()?)?;
    }
    Ok(same)
}

/// The same texts of attributes, whose bytes are not copied.
pub(crate) fn share_all_texts(alloc: Global, all: &[Texts]) -> Result<TagTexts, NoMemory>
    ensures { IfOk result (λ same. same ≡ all.now) }
{
    let mut same = Items::new(alloc);
    for texts in all {
        same.push(share_texts(alloc, texts.as_slice())?)?;
    }
    Ok(same)
}

/// The same states of attributes, whose texts are not copied.
pub(crate) fn share_states(alloc: Global, states: &[AttrState]) -> Result<AttrStates, NoMemory>
    ensures { IfOk result (λ same. same ≡ states.now) }
{
    let mut same = Items::new(alloc);
    for state in states {
        same.push(state.share(alloc)?)?;
    }
    Ok(same)
}

/// The same props.
pub(crate) fn share_props(alloc: Global, props: &[SlotProp]) -> Result<SlotProps, NoMemory>
    ensures { IfOk result (λ same. same ≡ props.now) }
{
    let mut same = Items::new(alloc);
    for prop in props {
        same.push(prop.share(alloc)?)?;
    }
    Ok(same)
}

/// What an attribute shows, if anything, whose text is not copied.
pub fn share_attr(attr: Option<&Attr>) -> Result<Option<Attr>, NoMemory>
    ensures { IfOk result (λ same. same ≡ option_copied attr.entry) }
{
    match attr {
        Some(attr) => Ok(Some(attr.share()?)),
        None => Ok(None),
    }
}

impl AttrState {
    /// The same state, whose texts are not copied.
    pub fn share(&self, alloc: Global) -> Result<AttrState, NoMemory>
        ensures { IfOk result (λ same. same ≡ self.now) }
    {
        match self {
            AttrState::Written => Ok(AttrState::Written),
            AttrState::Texts(texts) => {
                Ok(AttrState::Texts(share_texts(alloc, texts.as_slice())?))
            }
            AttrState::Shows(attr) => Ok(AttrState::Shows(share_attr(attr.as_ref())?)),
            AttrState::Holds(holds) => Ok(AttrState::Holds(*holds)),
        }
    }
}

impl SlotProp {
    /// The same prop, whose value is not copied.
    pub fn share(&self, alloc: Global) -> Result<SlotProp, NoMemory>
        ensures { IfOk result (λ same. same ≡ self.now) }
    {
        let value = self.value.share()?;
        let texts = share_texts(alloc, self.texts.as_slice())?;
        Ok(SlotProp {
            name: self.name,
            value,
            number: self.number,
            texts,
        })
    }
}

impl KeyState {
    /// The same state, whose value is not copied.
    pub fn share(&self) -> Result<KeyState, NoMemory>
        ensures { IfOk result (λ same. same ≡ self.now) }
    {
        let value = self.value.share()?;
        Ok(KeyState {
            value,
            number: self.number,
        })
    }
}
