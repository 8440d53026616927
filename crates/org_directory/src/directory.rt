// The directory.
ghost use Rattle.std.specs.Prelude.{[], ◌≡◌, ◌+◌, ◌<◌, length, map, slice_get, Some};
ghost use Rattle.org_directory.specs.Register.{IsSound, forward_list, is_inside, place_of, is_deliverable, onward_in};

use crate::names::Names;
use crate::object::{Kind, Object};
use mail_names::{Items, Key, Steps};
use std::alloc::Global;
use std::marker::Model;
use std::sync::ledger::Ledger;

/// The objects and accepted domains of an organisation.
#[derive(Drop)]
pub struct Directory {
    domains: Names,
    keys: Names,
    objects: Items<Object>,
}

impl Model for Directory {
    ghost use Rattle.std.specs.Prelude.{◌≡◌, map};
    ghost use Rattle.org_directory.specs.Register.{Register, IsSound};

    ghost Value = { Register };

    ghost view = { λ d. record { domains = d.domains; objects = d.objects } };

    ghost invariant = { λ d. (d.keys ≡ map (λ o. o.key) d.objects) × IsSound (record { domains = d.domains; objects = d.objects }) };
}

/// The forward, where it is asked for as member 0.
fn forward_at(forward: Option<u32>, k: u32) -> Option<u32>
    ensures { result ≡ slice_get (forward_list forward) k }
{
    if k == 0 { forward } else { None }
}

impl Directory {
    /// The directory with no objects and no accepted domains. It takes no memory.
    pub fn empty(alloc: Global) -> Directory
        ensures { result ≡ record { domains = []; objects = [] } }
    {
        Directory {
            domains: Names::new(alloc),
            keys: Names::new(alloc),
            objects: Items::new(alloc),
        }
    }

    /// The directory of these domains and objects, whose keys are given beside them. It takes no memory.
    pub(crate) fn of(domains: Names, keys: Names, objects: Items<Object>) -> Directory
        requires keys { keys ≡ map (λ o. o.key) objects }
        requires sound { IsSound (record { domains = domains; objects = objects }) }
        ensures { result ≡ record { domains = domains; objects = objects } }
    {
        Directory {
            domains,
            keys,
            objects,
        }
    }

    /// Each key stands once and each place is in range. The call does nothing.
    pub fn is_sound(&self)
        ensures { IsSound self.now }
    {
        let _ = &self.objects;
    }

    /// How many objects there are. Their places are the numbers below it.
    pub fn len(&self) -> usize
        ensures { result ≡ length self.now.objects }
    {
        self.objects.len()
    }

    /// The place of the object of this key, or None where no object has it. It takes no memory.
    pub fn find(&self, key: &Key) -> Option<u32>
        ensures { result ≡ place_of self.now key.now }
    {
        match self.keys.place(key.bytes()) {
            Some(place) => Some(place as u32),
            None => None,
        }
    }

    /// The object at a place.
    pub fn object(&self, id: u32) -> &Object
        requires { id < length self.now.objects }
        ensures { slice_get self.now.objects id ≡ Some result.now }
    {
        &self.objects.as_slice()[id as usize]
    }

    /// Whether the key's domain is accepted. It takes no memory.
    pub fn is_inside(&self, key: &Key) -> bool
        ensures { result ≡ is_inside self.now key.now }
    {
        self.domains.has(key.domain())
    }

    /// Whether mail can be delivered to the key itself: a mailbox, a contact, or no object and outside. It takes no memory.
    pub fn deliverable(&self, key: &Key) -> bool
        ensures { result ≡ is_deliverable self.now key.now }
    {
        match self.find(key) {
            Some(place) => !matches!(self.object(place).kind, Kind::Group),
            None => !self.is_inside(key),
        }
    }

    /// The member number `k` of a group, or None past its last; the forward of a mailbox is its member 0. It counts one
    /// step and takes no memory.
    pub fn member_at<L: Ledger>(&self, id: u32, k: u32, steps: &mut Steps<L>) -> Option<u32>
        requires { id < length self.now.objects }
        ensures member { result ≡ slice_get (onward_in (slice_get self.now.objects id)) k }
        ensures cost { steps.new ≡ steps.old + 1 }
    {
        steps.tick();
        let object = self.object(id);
        if matches!(object.kind, Kind::Group) {
            return object.members.as_slice().get(k as usize).copied();
        }
        forward_at(object.forward, k)
    }
}
