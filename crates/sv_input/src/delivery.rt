// Events on their way.
use std::alloc::Global;
use sv_code::Program;
use sv_document::Element;
use sv_events::Event;
use sv_tokens::Typed;

/// An event that is dispatched, and the program of the page. What is made takes its memory from `alloc`.
#[derive(Clone, Copy)]
pub struct Desk<'a> {
    pub alloc: Global,
    pub program: &'a Program,
    pub event: &'a Event,
}

/// An event on its way through a page: the element that it went to, and what that takes of it.
#[derive(Clone, Copy)]
pub struct Delivery<'a> {
    pub desk: &'a Desk<'a>,
    pub target: &'a Element,
    pub typed: Option<&'a Typed>,
}
