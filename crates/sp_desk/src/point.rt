// Where an operation under way stands.
ghost use Rattle.std.specs.Option.{IfSome};
ghost use Rattle.std.specs.Prelude.{◌≡◌, ◌<◌};
ghost use Rattle.sp_desk.specs.Points.{event_at, next_after, resumed, ahead};

use sp_event::{Answer, Event};
use sp_locks::SessionId;

/// Where an operation under way stands: what its session asks next.
#[derive(Clone, Copy, Debug, PartialEq, Eq)]
pub enum Point {
    /// The lock on the operation's object.
    Object,
    /// The latch, and which locks the operation needs.
    Plan,
    /// The next of so many locks; where none is left, the operation itself.
    Locks(u64),
}

impl Point {
    /// The event by which the session asks.
    pub(crate) fn event(self, session: SessionId) -> Event
        ensures { result ≡ event_at session self }
    {
        match self {
            Point::Object => Event::Name(session),
            Point::Plan => Event::Plan(session),
            Point::Locks(0) => Event::Apply(session),
            Point::Locks(_) => Event::Ask(session),
        }
    }

    /// The point after an answer by which the operation goes on.
    pub(crate) fn after(self, answer: &Answer) -> Option<Point>
        ensures next { result ≡ next_after self answer.now }
        ensures ahead { IfSome result (λ next. ahead next < ahead self) }
    {
        match (self, answer) {
            (Point::Object, Answer::Granted) => Some(Point::Plan),
            (Point::Plan, Answer::Planned(count)) => Some(Point::Locks(*count)),
            (Point::Locks(left), Answer::Granted) if left > 0 => Some(Point::Locks(left - 1)),
            _ => None,
        }
    }

    /// Where the operation goes on that waited there: the locks that it needs are planned anew.
    pub(crate) fn resumed(self) -> Point
        ensures { result ≡ resumed self }
    {
        match self {
            Point::Object => Point::Object,
            Point::Plan | Point::Locks(_) => Point::Plan,
        }
    }
}
