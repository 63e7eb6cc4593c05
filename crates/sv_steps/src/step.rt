// What a test does and expects.
use sv_base::Text;
use sv_events::Event;

/// What is wanted of the elements that match a selector.
#[derive(Drop)]
pub enum Want {
    /// That there are so many.
    Count(u32),
    /// That the texts below the first one are this text.
    Text(Text),
    /// That the first one shows an attribute as this text, or that it doesn't show it.
    Attribute { name: Text, shows: Option<Text> },
}

/// A selector, and what is wanted of the elements that match it.
#[derive(Drop)]
pub struct Expectation {
    pub selector: Text,
    pub want: Want,
}

/// A step of a test: an event that comes to the page, or what is expected of the page then.
#[derive(Drop)]
pub enum Step {
    Event(Event),
    Expect(Expectation),
}
