//! What acl(5)'s check and Linux grant all users on one file.
//!
//! By the check, first all are others. Then the users of the groups that the label mentions, then those whom it names, and then
//! the owner have what the case of the check that is theirs grants.

ghost use Rattle.std.specs.Prelude.{◌≡◌, if◌then◌else◌, map, length};
ghost use Rattle.std.specs.Int.RustNames.{bit_or};
ghost use Rattle.acl_entry.specs.Check.{byte_of, group_of, rights};
ghost use Rattle.acl_entry.specs.Linux.{check_mode, linux_rights};
ghost use Rattle.acl_entry.specs.Lists.{masked_by, perm_at};
ghost use Rattle.acl_entry.specs.Perms.{none};
ghost use Rattle.acl_people.specs.Places.{is_in};
ghost use Rattle.acl_people.specs.Cases.{by_groups, by_name_or, granted_by, mask_of, to_matched, AreWithin, ChangesAt, Regrants};

use crate::subjects::Subjects;
use acl_entry::{Acl, Id, Key, Label, Perm, Requests};

/// Puts requests at `places`.
fn put(row: &mut [Requests], places: &[usize], requests: Requests)
    requires { AreWithin places.now row.old }
    ensures { ChangesAt places.now (λ _. requests) row.old row.new }
{
    for place in places {
        row[*place] = requests;
    }
}

/// Adds requests at `places`.
fn add(row: &mut [Requests], places: &[usize], requests: Requests)
    requires { AreWithin places.now row.old }
    ensures { ChangesAt places.now (λ n. bit_or n requests) row.old row.new }
{
    for place in places {
        row[*place] = row[*place].union(requests);
    }
}

/// Returns what permissions grant, limited to the mask, if there is one.
fn under(mask: &Option<Perm>, perm: Perm) -> Requests
    ensures { result ≡ granted_by (masked_by mask.now perm) }
{
    match mask {
        Some(mask) => Requests::within(perm.meet(*mask)),
        None => Requests::within(perm),
    }
}

/// Returns what the entry of a key grants without the mask.
fn unmasked(acl: &Acl, key: Key) -> Requests
    ensures { result ≡ granted_by (perm_at acl.now key) }
{
    Requests::within(acl.get(key).unwrap_or(Perm::none()))
}

/// Returns the group that an entry of the key is for.
fn group_of(owning: Id, key: &Key) -> Option<Id>
    ensures { result ≡ group_of owning key.now }
{
    match *key {
        Key::OwningGroup => Some(owning),
        Key::Group(group) => Some(group),
        Key::Owner | Key::User(_) | Key::Mask | Key::Other => None,
    }
}

/// Clears the verdicts on the users of the groups that the entries are for.
fn clear_groups(row: &mut [Requests], users: &Subjects, label: &Label)
    requires { length row.old ≡ length users.now }
    ensures { Regrants users.now row.old row.new (λ f. f) (to_matched label.now (λ _. 0)) }
{
    for entry in label.acl.entries() {
        if let Some(group) = group_of(label.group, &entry.key) {
            put(row, users.of_group(group), Requests::none());
        }
    }
}

/// Adds what each entry for a group grants, to the users of the group, who have nothing before.
fn add_groups(row: &mut [Requests], users: &Subjects, label: &Label, mask: &Option<Perm>)
    requires length { length row.old ≡ length users.now }
    requires mask { mask.now ≡ mask_of label.now }
    ensures { Regrants users.now row.old row.new (to_matched label.now (λ _. 0)) (to_matched label.now (by_groups label.now)) }
{
    for entry in label.acl.entries() {
        if let Some(group) = group_of(label.group, &entry.key) {
            add(row, users.of_group(group), under(mask, entry.perm));
        }
    }
}

/// Puts what the entries of named users grant, from the last to the first.
fn put_named(row: &mut [Requests], users: &Subjects, label: &Label, mask: &Option<Perm>)
    requires length { length row.old ≡ length users.now }
    requires mask { mask.now ≡ mask_of label.now }
    ensures { Regrants users.now row.old row.new (λ f. f) (λ f u. by_name_or label.now u (f u)) }
{
    let entries = label.acl.entries();
    for i in (0..entries.len()).rev() {
        let entry = &entries[i];
        if let Key::User(id) = entry.key {
            put(row, users.of_id(id), under(mask, entry.perm));
        }
    }
}

/// Writes the requests that the check of acl(5) grants each user on a file into `row`, in the order of the users.
pub fn granted_to_all(users: &Subjects, label: &Label, row: &mut [Requests])
    requires { length row.old ≡ length users.now }
    ensures { row.new ≡ map (λ u. rights u label.now) users.now }
{
    let mask = label.acl.get(Key::Mask);
    let others = unmasked(&label.acl, Key::Other);
    row.fill(others);
    clear_groups(row, users, label);
    add_groups(row, users, label, &mask);
    put_named(row, users, label, &mask);
    let owner = unmasked(&label.acl, Key::Owner);
    put(row, users.of_id(label.owner), owner);
}

/// Puts what no permissions grant, the empty request alone, for the members of a group.
fn put_members(row: &mut [Requests], users: &Subjects, group: Id)
    requires { length row.old ≡ length users.now }
    ensures { Regrants users.now row.old row.new (λ f. f) (λ f u. if is_in group u then granted_by none else f u) }
{
    put(row, users.of_group(group), Requests::within(Perm::none()));
}

/// Writes what a mode whose group digit is 0 grants each user into `row`, in the order of the users.
fn granted_to_all_by_mode(users: &Subjects, label: &Label, row: &mut [Requests])
    requires { length row.old ≡ length users.now }
    ensures { row.new ≡ map (λ u. byte_of (check_mode u label.now)) users.now }
{
    let others = unmasked(&label.acl, Key::Other);
    row.fill(others);
    put_members(row, users, label.group);
    let owner = unmasked(&label.acl, Key::Owner);
    put(row, users.of_id(label.owner), owner);
}

/// Writes the requests that Linux grants each user on a file ([`acl_entry::granted_by_linux`]) into `row`, in the order of
/// the users.
pub fn granted_to_all_by_linux(users: &Subjects, label: &Label, row: &mut [Requests])
    requires { length row.old ≡ length users.now }
    ensures { row.new ≡ map (λ u. linux_rights u label.now) users.now }
{
    if label.acl.has_empty_mask() {
        granted_to_all_by_mode(users, label, row);
    } else {
        granted_to_all(users, label, row);
    }
}
