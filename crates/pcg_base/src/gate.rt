use std::sync::Wait;

/// How far a client's line has come.
#[derive(Clone, Copy, Debug, PartialEq, Eq)]
pub enum Point {
    /// An edit is planned.
    Planned,
    /// A planned edit is written where no reader looks yet.
    Drafted,
    /// A drafted edit can be seen by readers.
    Published,
    /// The reply is written.
    Answered,
}

/// What a client passes at each point of a line. It may hold the client there.
pub trait Gate {
    /// Passes a point, with the client's number and the line's, both counted from 1.
    fn pass<R: Wait>(&self, rt: &R, point: Point, client: u32, line: u32);
}

/// A gate that holds nobody.
#[derive(Clone, Copy, Debug, PartialEq, Eq)]
pub struct OpenGate;

impl Gate for OpenGate {
    fn pass<R: Wait>(&self, _: &R, _: Point, _: u32, _: u32) {}
}
