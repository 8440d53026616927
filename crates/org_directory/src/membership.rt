// Who is in a group, at any depth: the groups that lead from it are walked once each.
ghost use Rattle.std.specs.Prelude.{◌≡◌, ◌<◌, ◌++◌, [], ◌∷◌, ◌↔◌, All, IsTrue, IfOk, OnOk, false, true, get_or, length, replicate, slice_set};
ghost use Rattle.std.specs.Str.{bytes_eq};
ghost use Rattle.org_directory.specs.Register.{IsSound, among, key_at, keys_at};
ghost use Rattle.org_directory.specs.Membership.{In, is_in};
ghost use Rattle.org_directory.specs.Marks.{marked, newly, new_at};

use crate::directory::Directory;
use mail_names::{Key, NoMemory};
use std::alloc::Global;

fn is_same(a: &[u8], b: &[u8]) -> bool
    ensures { result ≡ bytes_eq a.now b.now }
{
    a == b
}

/// Marks a place, and queues it where it had no mark.
fn queue_place(place: u32, marks: &mut [bool], queue: &mut Vec<u32>) -> Result<(), NoMemory>
    requires { place < length marks.old }
    ensures marks { OnOk result (marks.new ≡ slice_set marks.old place true) }
    ensures queue { OnOk result (queue.new.items ≡ queue.old.items ++ new_at (get_or marks.old place false) place) }
{
    let had = marks[place as usize];
    marks[place as usize] = true;
    if had {
        return Ok(());
    }
    queue.push(place)?;
    Ok(())
}

/// Marks each place, and queues those that had no mark.
fn queue_places(places: &[u32], marks: &mut [bool], queue: &mut Vec<u32>) -> Result<(), NoMemory>
    requires { All (λ p. p < length marks.old) places.now }
    ensures marks { OnOk result (marks.new ≡ marked marks.old places.now) }
    ensures queue { OnOk result (queue.new.items ≡ queue.old.items ++ newly marks.old places.now) }
{
    for place in places {
        queue_place(*place, marks, queue)?;
    }
    Ok(())
}

/// Whether the key is among the members of the group, of their members, and so on.
fn is_led_to(
    directory: &Directory,
    group: u32,
    key: &Key,
    marks: &mut [bool],
    queue: &mut Vec<u32>,
) -> Result<bool, NoMemory>
    requires sound { IsSound directory.now }
    requires group { group < length directory.now.objects }
    requires marks { marks.old ≡ replicate (length directory.now.objects) false }
    requires queue { queue.old.items ≡ [] }
    ensures { IfOk result (λ b. IsTrue b ↔ In directory.now (key_at directory.now group) key.now) }
{
    queue_place(group, marks, queue)?;
    let mut done = 0;
    while done < queue.len() {
        let members = directory.object(queue[done]).members.as_slice();
        if directory.lists(members, key) {
            return Ok(true);
        }
        queue_places(members, marks, queue)?;
        done += 1;
    }
    Ok(false)
}

impl Directory {
    /// Whether the key is that of an object at one of these places. It takes no memory.
    pub fn lists(&self, places: &[u32], key: &Key) -> bool
        requires { All (λ p. p < length self.now.objects) places.now }
        ensures { result ≡ among key.now (keys_at self.now places.now) }
    {
        for place in places {
            if is_same(key.bytes(), self.object(*place).key.bytes()) {
                return true;
            }
        }
        false
    }

    /// Whether the key is in the group at a place, at any depth. Its own key is in it where a chain of members leads back to it.
    pub fn in_group(&self, alloc: Global, group: u32, key: &Key) -> Result<bool, NoMemory>
        requires { group < length self.now.objects }
        ensures chain { IfOk result (λ b. IsTrue b ↔ In self.now (key_at self.now group) key.now) }
        ensures test { IfOk result (λ b. b ≡ is_in self.now (key_at self.now group) key.now) }
    {
        self.is_sound();
        let mut marks = vec![in alloc; false; self.len()]?;
        let mut queue = Vec::new(alloc);
        is_led_to(self, group, key, &mut marks, &mut queue)
    }
}
