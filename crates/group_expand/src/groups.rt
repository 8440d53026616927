// Which groups a sender is in: each is walked where it is first asked, and once.
ghost use Rattle.std.specs.Prelude.{◌≡◌, ◌<◌, ◌≤◌, ℕ, IfOk, OnOk, List, length, Option, Some};
ghost use Rattle.org_directory.specs.Register.{Register, key_at};
ghost use Rattle.org_directory.specs.Membership.{is_in};
ghost use Rattle.group_expand.specs.Groups.{KnowsGroups};

use mail_names::{Key, NoMemory};
use org_directory::Directory;
use std::alloc::Global;

/// What is known of a sender's groups.
#[derive(Drop)]
pub struct Groups {
    /// Of each place whether the sender is in its group, where that is known. It is empty until a group is asked.
    pub known: Vec<Option<bool>>,
}

impl Groups {
    /// Nothing is known yet, and no memory taken.
    pub fn new(alloc: Global) -> Groups
        ensures { (reg : Register) (sender : Option (List ℕ)) → KnowsGroups reg sender result }
    {
        Groups {
            known: Vec::new(alloc),
        }
    }

    /// Makes room for an answer at each place.
    fn make_room(&mut self, alloc: Global, directory: &Directory) -> Result<(), NoMemory>
        ensures room { OnOk result (length directory.now.objects ≤ length self.new.known.items) }
        ensures known { (sender : Option (List ℕ)) → OnOk result (KnowsGroups directory.now sender self.old → KnowsGroups directory.now sender self.new) }
    {
        if self.known.len() >= directory.len() {
            return Ok(());
        }
        self.known = vec![in alloc; None; directory.len()]?;
        Ok(())
    }

    /// Whether the sender is in the group at a place. The group is walked at most once.
    pub fn has(
        &mut self,
        alloc: Global,
        directory: &Directory,
        place: u32,
        sender: &Key,
    ) -> Result<bool, NoMemory>
        requires place { place < length directory.now.objects }
        requires known { KnowsGroups directory.now (Some sender.now) self.old }
        ensures answer { IfOk result (λ b. b ≡ is_in directory.now (key_at directory.now place) sender.now) }
        ensures known { OnOk result (KnowsGroups directory.now (Some sender.now) self.new) }
    {
        self.make_room(alloc, directory)?;
        match self.known[place as usize] {
            Some(known) => Ok(known),
            None => {
                let is_in = directory.in_group(alloc, place, sender)?;
                self.known[place as usize] = Some(is_in);
                Ok(is_in)
            }
        }
    }
}
