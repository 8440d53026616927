// What stands in for a hub and its plant.
ghost use Rattle.std.specs.Prelude.{◌≡◌, ◌∷◌, ◌++◌, []};
ghost use Rattle.desk_tests.specs.Tray.{Does, notes_of, reply_to};
ghost use Rattle.desk_tests.specs.declared.deed.Deed.{Deed};

use crate::deed::{Ask, Deed, Note, Reply};
use desk_turns::Deeds;
use std::alloc::Global;

/// A tray for one item, which notes what is done to it.
#[derive(Drop)]
pub struct Tray {
    pub item: Option<u64>,
    pub stopped: bool,
    pub notes: Vec<Note>,
}

impl Tray {
    /// An empty tray.
    pub fn new(alloc: Global) -> Tray {
        Tray {
            item: None,
            stopped: false,
            notes: Vec::new(alloc),
        }
    }

    /// Does what is asked, and notes it with the mark.
    pub fn answer(&mut self, mark: u64, ask: Ask) -> Reply
        ensures does { Does self.old (record { ask = ask; reply = result }) self.new }
        ensures notes { self.new.notes.items ≡ self.old.notes.items ++ notes_of mark ask result }
    {
        if self.notes.reserve(1).is_err() {
            return Reply::NoMemory;
        }
        let reply = self.reply_to(ask);
        let deed = Deed { ask, reply };
        self.notes.push_reserved(Note { mark, deed });
        match ask {
            Ask::Post(item) => self.item = Some(item),
            Ask::Take if !self.stopped => self.item = None,
            Ask::Take => {}
            Ask::Stop => self.stopped = true,
        }
        reply
    }

    fn reply_to(&self, ask: Ask) -> Reply
        ensures { result ≡ reply_to self.now.item self.now.stopped ask }
    {
        match ask {
            Ask::Post(_) => Reply::Replaced(self.item),
            Ask::Take if !self.stopped => Reply::Took(self.item),
            Ask::Take => Reply::Stopped,
            Ask::Stop => Reply::Done,
        }
    }
}

impl Deeds<Deed> for Tray {
    ghost does = { Does };
}
