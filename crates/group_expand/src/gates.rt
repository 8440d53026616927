// Which objects are closed: each is asked where it is met, and once.
ghost use Rattle.std.specs.Prelude.{◌≡◌, ◌<◌, false, IfOk, OnOk, length, option_copied};
ghost use Rattle.std.specs.List.{list_any};
ghost use Rattle.org_directory.specs.Register.{key_at};
ghost use Rattle.group_expand.specs.Expansion.{opens, is_closed};
ghost use Rattle.group_expand.specs.Groups.{KnowsGroups};
ghost use Rattle.group_expand.specs.Gates.{AreReady, shuts, ShutsSame};

use crate::approval::needs_approval_with;
use crate::groups::Groups;
use mail_names::{Gate, Key, NoMemory};
use org_directory::Directory;
use std::alloc::Global;

fn is_gate_of(key: &Key, gate: &Gate) -> bool
    ensures { result ≡ opens key.now gate.now }
{
    match gate {
        Gate::Object { key: k } => key.bytes() == k.bytes(),
        Gate::Rule { .. } => false,
    }
}

pub fn is_opened(key: &Key, opened: &[Gate]) -> bool
    ensures { result ≡ list_any (opens key.now) opened.now }
{
    opened.iter().any(|gate| is_gate_of(key, gate))
}

/// Whether the object at a place needs approval and its gate isn't opened, by what is known of the sender's groups.
fn is_shut(
    alloc: Global,
    directory: &Directory,
    id: u32,
    sender: Option<&Key>,
    opened: &[Gate],
    groups: &mut Groups,
) -> Result<bool, NoMemory>
    requires place { id < length directory.now.objects }
    requires groups { KnowsGroups directory.now (option_copied sender) groups.old }
    ensures answer { IfOk result (λ b. b ≡ is_closed directory.now (option_copied sender.entry) opened.now (key_at directory.now id)) }
    ensures groups { OnOk result (KnowsGroups directory.now (option_copied sender.entry) groups.new) }
{
    let needs = needs_approval_with(alloc, directory, id, sender, groups)?;
    if !needs {
        return Ok(false);
    }
    let open = is_opened(&directory.object(id).key, opened);
    Ok(!open)
}

/// The gates of one expansion.
#[derive(Drop)]
pub struct Gates<'a> {
    pub sender: Option<&'a Key>,
    pub opened: &'a [Gate],
    /// Of each place whether its object is closed, where that is known.
    pub known: Vec<Option<bool>>,
    /// What is known of the sender's groups: one that many objects name is walked once.
    pub groups: Groups,
}

impl<'a> Gates<'a> {
    /// The gates for a sender, where these are opened. Nothing is asked yet.
    pub fn new(
        alloc: Global,
        directory: &Directory,
        sender: Option<&'a Key>,
        opened: &'a [Gate],
    ) -> Result<Gates<'a>, NoMemory>
        ensures ready { IfOk result (λ gates. AreReady directory.now gates) }
        ensures shut { IfOk result (λ gates. shuts directory.now gates ≡ is_closed directory.now (option_copied sender.entry) opened.now) }
    {
        let known = vec![in alloc; None; directory.len()]?;
        Ok(Gates {
            sender,
            opened,
            known,
            groups: Groups::new(alloc),
        })
    }

    /// The gates where every one is taken as opened. Nothing is ever asked.
    pub fn all_open(alloc: Global, directory: &Directory) -> Result<Gates<'a>, NoMemory>
        ensures ready { IfOk result (λ gates. AreReady directory.now gates) }
        ensures shut { IfOk result (λ gates. shuts directory.now gates ≡ (λ k. false)) }
    {
        let known = vec![in alloc; Some(false); directory.len()]?;
        Ok(Gates {
            sender: None,
            opened: &[],
            known,
            groups: Groups::new(alloc),
        })
    }

    /// Whether the object at a place is closed. It is asked at most once.
    pub fn is_shut(
        &mut self,
        alloc: Global,
        directory: &Directory,
        place: u32,
    ) -> Result<bool, NoMemory>
        requires place { place < length directory.now.objects }
        requires ready { AreReady directory.now self.old }
        ensures answer { IfOk result (λ b. b ≡ shuts directory.now self.old (key_at directory.now place)) }
        ensures same { OnOk result (ShutsSame directory.now self.old self.new) }
    {
        directory.is_sound();
        match self.known[place as usize] {
            Some(known) => Ok(known),
            None => {
                let groups = &mut self.groups;
                let shut = is_shut(alloc, directory, place, self.sender, self.opened, groups)?;
                self.known[place as usize] = Some(shut);
                Ok(shut)
            }
        }
    }

    /// Whether the object of this key is closed.
    pub fn shuts(
        &mut self,
        alloc: Global,
        directory: &Directory,
        key: &Key,
    ) -> Result<bool, NoMemory>
        requires ready { AreReady directory.now self.old }
        ensures answer { IfOk result (λ b. b ≡ shuts directory.now self.old key.now) }
        ensures same { OnOk result (ShutsSame directory.now self.old self.new) }
    {
        match directory.find(key) {
            Some(place) => self.is_shut(alloc, directory, place),
            None => Ok(false),
        }
    }
}
