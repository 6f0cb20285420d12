//! What drives a connection: its side, and who takes its turns.

ghost use Rattle.std.specs.Prelude.{◌≡◌, ℕ, IfOk};
ghost use Rattle.vtp_server.specs.Talk.{Rules};
ghost use Rattle.vtp_server.specs.Fits.{Gives};

use crate::speech::Speech;
use voe_values::{Bytes, Ivorn, NoMemory};
use vtp_framing::Payload;
use vtp_session::Act;

/// The move that comes next.
#[derive(Drop)]
pub enum Next<A, E> {
    /// The next message is read.
    Read,
    /// A turn is made.
    Ask(A),
    /// A message is written.
    Say(Speech),
    /// A packet is written, and waits for its answer.
    Send { identifier: Ivorn, packet: Payload },
    /// A line is put on the sink.
    Tell(Bytes),
    /// None: the talk is over.
    Over(E),
}

/// One side of a connection: which move comes next after each move.
pub trait Side<A, R, E> {
    /// What it does, over the memory that contracts see of it.
    ghost rules: { Rules Self A R E };

    /// What it takes as a reply.
    ghost takes: { R → Type 0 };

    /// After a read: what it found, whether a beat is due, and how many packets wait for an answer.
    fn heard(&mut self, act: Act, beats: bool, waiting: usize) -> Result<Next<A, E>, NoMemory>
        ensures { IfOk result (λ next. Gives (rules.after_read self.old act beats waiting) self.new next) };

    /// After a turn: its reply, and how many records there are then.
    fn answered(&mut self, reply: R, front: u64, waiting: usize) -> Result<Next<A, E>, NoMemory>
        requires { takes reply }
        ensures { IfOk result (λ next. Gives (rules.after_turn self.old reply front waiting) self.new next) };

    /// After a message was written.
    fn written(&mut self, waiting: usize) -> Result<Next<A, E>, NoMemory>
        ensures { IfOk result (λ next. Gives (rules.after_write self.old waiting) self.new next) };

    /// After a line was put on the sink.
    fn told(&mut self, waiting: usize) -> Result<Next<A, E>, NoMemory>
        ensures { IfOk result (λ next. Gives (rules.after_line self.old waiting) self.new next) };
}

/// Who takes the turns of connections, each from a seat.
pub trait Turns<A, R> {
    type Seat;

    /// The seat belongs here.
    ghost seats: { Self → Self.Seat → Type 0 };

    /// What a turn does: the seat before, the ask, the reply, on how many records it acted, how many there are
    /// afterwards, and the seat afterwards.
    ghost acts: { Self → Self.Seat → A → R → ℕ → ℕ → Self.Seat → Type 0 };

    /// How many records the seat has seen.
    ghost front_of: { Self.Seat → ℕ };

    /// What is true of each reply.
    ghost gives: { R → Type 0 };

    /// Makes a turn.
    fn turn(&self, seat: &mut Self::Seat, ask: A) -> R
        requires { seats self.now seat.old }
        ensures seat { seats self.now seat.new }
        ensures gives { gives result }
        ensures turn { (place : ℕ) × acts self.now seat.old ask result place (front_of seat.new) seat.new };

    /// How many records the seat has seen.
    fn front(&self, seat: &Self::Seat) -> u64
        ensures { result ≡ front_of seat.now };
}
