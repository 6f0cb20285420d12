//! A node's book, with what an end adds to it: the sessions of a broker's links, and the number of steps.

ghost use Rattle.std.specs.Prelude.{◌≡◌, ◌<◌, true, [], IfOk, IfErr, IsSome, None, Some, length};
ghost use Rattle.std.specs.Option.{option_map};
ghost use Rattle.net_model.specs.Notes.{first_from, offer, to_send};
ghost use Rattle.net_model.specs.Steps.{adds, join_link, last_of, next_session};
ghost use Rattle.node_notes.specs.Forms.{is_config, is_next};
ghost use Rattle.node_notes.specs.Open.{place_of};
ghost use Rattle.node_book.specs.Keeps.{has_room};

use crate::added::Added;
use crate::book::Book;
use crate::fallen::Fallen;
use crate::fault::BookFault;
use crate::given::Given;
use net_model::Note;
use node_notes::Config;
use std::alloc::Global;
use std::marker::Model;
use voe_disk::{CrashDisk, Disk, DiskFail};
use voe_values::{Bytes, Listing, NoMemory, NodeKind};

/// The book of an end, the number of the last session of each link of a broker, and how many steps the end has made
/// since it was made or loaded, up to 2^64 - 1.
#[derive(Drop)]
pub struct EndBook<D: Disk> {
    alloc: Global,
    book: Book<D>,
    sessions: Listing<u64>,
    steps: u64,
}

impl<D: Disk> Model for EndBook<D> {
    ghost use Rattle.node_book.specs.Ends.{EndView};

    ghost Value = { EndView D };

    ghost view = { λ e. record { disk = e.book.disk; config = e.book.config; notes = e.book.notes; sessions = e.sessions; steps = e.steps; down = e.book.down } };
}

impl<D: Disk> EndBook<D> {
    ghost use Rattle.node_book.specs.Ends.{IsSound, after_step, book_of, fallen_of, with_sessions};
    ghost use Rattle.node_book.specs.EndSteps.{Happens, IsNotAdded, IsReady, KeepsRest, added_of, fate_of_added, offered_at, placed};
    ghost use Rattle.node_book.specs.EndMaking.{IsMade, IsNotMade, IsLoaded, IsNotLoaded};

    /// Makes a book with these sessions on a disk that has no journal, or one with no payload. An `Err` hands the disk
    /// back, as `Book::make` does.
    pub fn make(
        alloc: Global,
        disk: D,
        config: Config,
        sessions: Listing<u64>,
    ) -> Result<Self, (D, BookFault)>
        requires { is_config config ≡ true }
        ensures ok { IfOk result (λ end. (end.sessions ≡ sessions) × IsMade D.Disk config disk end) }
        ensures err { IfErr result (λ e. IsNotMade D.Disk config disk e.0 e.1) }
    {
        match Book::make(alloc, disk, config) {
            Ok(book) => Ok(EndBook {
                alloc,
                book,
                sessions,
                steps: 0,
            }),
            Err(refused) => Err(refused),
        }
    }

    /// Reads the book of a disk, of a node of this kind. An `Err` hands the disk back, as `Book::load` does, with
    /// `BadNote` (G6) at place 16 where the configuration is of another kind.
    pub fn load(alloc: Global, disk: D, kind: NodeKind) -> Result<Self, (D, BookFault)>
        ensures ok { IfOk result (λ end. (end.sessions ≡ []) × (end.config.kind ≡ kind) × IsLoaded D.Disk disk end) }
        ensures err { IfErr result (λ e. IsNotLoaded D.Disk (λ config. config.kind ≡ kind → ⊥) disk e.0 e.1) }
    {
        match Book::load(alloc, disk) {
            Ok(book) => {
                if book.config().kind != kind {
                    return Err((book.into_disk(), BookFault::BadNote { place: 16 }));
                }
                Ok(EndBook {
                    alloc,
                    book,
                    sessions: Listing::new(alloc),
                    steps: 0,
                })
            }
            Err(refused) => Err(refused),
        }
    }

    /// Where the end takes its memory.
    pub fn alloc(&self) -> Global {
        self.alloc
    }

    /// The book.
    pub fn book(&self) -> &Book<D>
        ensures { result.now ≡ book_of self.now }
    {
        &self.book
    }

    /// The numbers of the last sessions of a broker's links.
    pub fn sessions(&self) -> &Listing<u64>
        ensures { result.now ≡ self.now.sessions }
    {
        &self.sessions
    }

    /// The same book with these sessions.
    pub fn with_sessions(self, sessions: Listing<u64>) -> Self
        ensures { result ≡ with_sessions self sessions }
    {
        let EndBook {
            alloc,
            book,
            steps,
            ..
        } = self;
        EndBook {
            alloc,
            book,
            sessions,
            steps,
        }
    }

    /// Begins a session of a link, and gives its number: one above the link's last, up to 2^64 - 1.
    pub fn join(&mut self, link: usize) -> u64
        requires { link < length self.old.sessions }
        ensures after { self.new ≡ with_sessions self.old (join_link self.old.sessions link) }
        ensures session { result ≡ next_session (last_of self.old.sessions link) }
    {
        let session = self.last_session(link).saturating_add(1);
        self.sessions.replace(link, session);
        session
    }

    /// The number of a link's last session, 0 before the first.
    pub fn last_session(&self, link: usize) -> u64
        ensures { result ≡ last_of self.now.sessions link }
    {
        match self.sessions.get(link) {
            Some(last) => *last,
            None => 0,
        }
    }

    /// How many steps were begun, up to 2^64 - 1.
    pub fn steps(&self) -> u64
        ensures { result ≡ self.now.steps }
    {
        self.steps
    }

    /// The disk as it is.
    pub fn into_disk(self) -> D
        ensures disk { result ≡ self.disk }
        ensures sound { IsSound D.Disk self }
    {
        let EndBook { book, .. } = self;
        book.into_disk()
    }

    /// Counts a step. Where the end is down it tells how, and the step is to do nothing.
    pub fn begin(&mut self) -> Option<Fallen>
        ensures after { self.new ≡ after_step self.old }
        ensures fallen { result ≡ option_map (fallen_of (D.faults self.old.disk)) self.old.down }
        ensures sound { IsSound D.Disk self.new }
        ensures ready { self.old.down ≡ None → IsReady D.Disk self.new }
    {
        self.steps = self.steps.saturating_add(1);
        let fail = self.book.down()?;
        Some(Fallen {
            faults: self.book.faults(),
            stopped: fail == DiskFail::Stopped,
        })
    }

    /// Adds a note that may stand behind the others. All memory is taken before the first device call.
    pub fn add(&mut self, note: Note) -> Added
        requires ready { IsReady D.Disk self.old }
        requires next { is_next self.old.config self.old.notes note ≡ true }
        ensures rest { KeepsRest D.Disk self.old self.new }
        ensures happens { Happens D.Disk self.old self.new (adds (has_room self.old.config self.old.notes note) note Added.Kept Added.Full) result (fate_of_added result) }
    {
        if let Err((_, fault)) = self.book.add(note) {
            return self.not_added(fault);
        }
        Added::Kept
    }

    /// What an answer of the book says of a note that was not added.
    fn not_added(&self, fault: BookFault) -> Added
        requires { IsNotAdded fault }
        ensures { result ≡ added_of (D.faults self.now.disk) fault }
    {
        match fault {
            BookFault::Full => Added::Full,
            BookFault::NoMemory => Added::NoMemory,
            BookFault::DiskFault => Added::Down {
                fallen: Fallen {
                    faults: self.book.faults(),
                    stopped: false,
                },
            },
            BookFault::Stopped => Added::Down {
                fallen: Fallen {
                    faults: self.book.faults(),
                    stopped: true,
                },
            },
            _ => unreachable!(),
        }
    }

    /// The first packet at or past a place that is unanswered on an author's line, or owed on a broker's link.
    pub fn next(&self, number: u16, after: usize) -> Result<Option<Given>, NoMemory>
        requires sends { self.now.config.kind ≡ NodeKind.Subscriber → ⊥ }
        requires configured { number < length self.now.config.links }
        ensures { IfOk result (λ given. option_map placed given ≡ first_from (to_send self.now.notes number) after 0 self.now.notes) }
    {
        match self.next_place(number, after) {
            None => Ok(None),
            Some(at) => {
                let given = self.give(at)?;
                Ok(Some(given))
            }
        }
    }

    fn next_place(&self, number: u16, after: usize) -> Option<usize>
        requires sends { self.now.config.kind ≡ NodeKind.Subscriber → ⊥ }
        requires configured { number < length self.now.config.links }
        ensures { result ≡ place_of (first_from (to_send self.now.notes number) after 0 self.now.notes) }
    {
        match self.book.config().kind {
            NodeKind::Author => self.book.next_unanswered(number, after),
            NodeKind::Broker => self.book.next_owed(number, after),
            NodeKind::Subscriber => unreachable!(),
        }
    }

    /// The packet of the note at a place, which has one to give.
    pub fn give(&self, at: usize) -> Result<Given, NoMemory>
        requires { IsSome (offered_at self.now.notes at) }
        ensures { IfOk result (λ given. (given.at ≡ at) × (offered_at self.now.notes at ≡ Some (offer given.identifier given.packet))) }
    {
        match self.book.note(at) {
            Some(Note::Wrote { identifier, packet })
            | Some(
                Note::Accept {
                    identifier,
                    packet,
                    ..
                },
            ) => Ok(Given {
                at,
                identifier: identifier.copy()?,
                packet: packet.copy()?,
            }),
            _ => unreachable!(),
        }
    }
}

impl<D: CrashDisk> EndBook<D> {
    ghost use Rattle.node_book.specs.EndMaking.{IsArmed};

    /// Arms the disk, as `CrashDisk::arm` does. All else stays.
    pub fn arm(&mut self, calls: u8, fill: u8)
        ensures { IsArmed D.Disk self.old self.new calls fill }
    {
        self.book.arm(calls, fill);
    }
}
