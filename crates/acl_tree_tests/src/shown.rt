//! What comes of a command, and what files are, as texts.
use crate::rows::path;
use acl_edit::{EditFault, Kind, Node};
use acl_entry::{Acl, Id, Label, Perm, Requests, Subject, granted};
use acl_names::{Name, Path, append_path};
use acl_people::People;
use acl_text::{Names, TextFault, append_id, append_short};
use acl_tree::{Command, Differences, Staged, State, Tree, TreeFault, UserChange};
use std::alloc::Global;
use std::process::Abort;

/// A fault, without what it contains.
fn words(fault: &TreeFault) -> &'static [u8] {
    match fault {
        TreeFault::NoSuchFile { .. } => b"no such file ",
        TreeFault::NotDirectory { .. } => b"not a directory ",
        TreeFault::Exists { .. } => b"exists ",
        TreeFault::IsDirectory { .. } => b"is a directory ",
        TreeFault::NoSuchUser { .. } => b"no such user ",
        TreeFault::NoSuchGroup { .. } => b"no such group ",
        TreeFault::NotMember => b"not a member",
        TreeFault::Edit { .. } => b"edit of ",
        TreeFault::TooMany => b"too many files",
        TreeFault::AlreadyLoaded => b"already loaded",
        TreeFault::Text(_) => b"text ",
        TreeFault::UserExists { .. } => b"user exists ",
        TreeFault::UidExists { .. } => b"user id in use ",
        TreeFault::TooManyUsers => b"too many users",
        TreeFault::NoMemory => b"no memory",
    }
}

fn path_of(fault: &TreeFault) -> Option<&Path> {
    match fault {
        TreeFault::NoSuchFile { path } => Some(path),
        TreeFault::NotDirectory { path } => Some(path),
        TreeFault::Exists { path } => Some(path),
        TreeFault::IsDirectory { path } => Some(path),
        TreeFault::Edit { path, .. } => Some(path),
        _ => None,
    }
}

fn name_of(fault: &TreeFault) -> Option<&Name> {
    match fault {
        TreeFault::NoSuchUser { name } => Some(name),
        TreeFault::NoSuchGroup { name } => Some(name),
        TreeFault::UserExists { name } => Some(name),
        _ => None,
    }
}

fn push(rt: &impl Abort, text: &mut Vec<u8>, bytes: &[u8]) {
    text.extend_from_slice(bytes).expect(rt, "memory");
}

fn text_fault(rt: &impl Abort, alloc: Global, fault: &TextFault) -> String {
    format!(in alloc; "{:?}, {}", fault.kind, fault.at).expect(rt, "memory")
}

fn push_text_fault(rt: &impl Abort, alloc: Global, text: &mut Vec<u8>, fault: &TreeFault) {
    if let TreeFault::Text(fault) = fault {
        push(rt, text, text_fault(rt, alloc, fault).as_bytes());
    }
}

fn edit_fault(rt: &impl Abort, alloc: Global, fault: &EditFault) -> String {
    format!(in alloc; ": {fault:?}").expect(rt, "memory")
}

fn push_edit_fault(rt: &impl Abort, alloc: Global, text: &mut Vec<u8>, fault: &TreeFault) {
    if let TreeFault::Edit { fault, .. } = fault {
        push(rt, text, edit_fault(rt, alloc, fault).as_bytes());
    }
}

fn push_uid(rt: &impl Abort, text: &mut Vec<u8>, fault: &TreeFault) {
    if let TreeFault::UidExists { id } = fault {
        append_id(text, *id, None).expect(rt, "memory");
    }
}

fn push_path(rt: &impl Abort, text: &mut Vec<u8>, path: Option<&Path>) {
    if let Some(path) = path {
        append_path(text, path).expect(rt, "memory");
    }
}

fn push_name(rt: &impl Abort, text: &mut Vec<u8>, name: Option<&Name>) {
    if let Some(name) = name {
        push(rt, text, name.as_bytes());
    }
}

fn fault_text(rt: &impl Abort, alloc: Global, fault: &TreeFault) -> Vec<u8> {
    let mut text = Vec::new(alloc);
    push(rt, &mut text, words(fault));
    push_path(rt, &mut text, path_of(fault));
    push_name(rt, &mut text, name_of(fault));
    push_text_fault(rt, alloc, &mut text, fault);
    push_edit_fault(rt, alloc, &mut text, fault);
    push_uid(rt, &mut text, fault);
    text
}

/// A number in decimal digits.
fn digits(rt: &impl Abort, alloc: Global, number: usize) -> String {
    format!(in alloc; "{number}").expect(rt, "memory")
}

fn push_number(rt: &impl Abort, alloc: Global, text: &mut Vec<u8>, number: usize) {
    push(rt, text, digits(rt, alloc, number).as_bytes());
}

/// How users move; where one user does, up to the user's place.
fn moved(users: &UserChange) -> &'static [u8] {
    match users {
        UserChange::Unchanged => b"",
        UserChange::Loaded => b", users loaded",
        UserChange::Memberships { .. } => b", user ",
        UserChange::Added => b", a user joined",
        UserChange::Removed { .. } => b", user ",
    }
}

/// The place of the user who moves or left.
fn place_of(users: &UserChange) -> Option<usize> {
    match users {
        UserChange::Memberships { user, .. } => Some(*user),
        UserChange::Removed { user } => Some(*user),
        _ => None,
    }
}

/// What follows that place.
fn moved_end(users: &UserChange) -> &'static [u8] {
    match users {
        UserChange::Memberships { .. } => b" moved:",
        UserChange::Removed { .. } => b" left",
        _ => b"",
    }
}

fn push_place(rt: &impl Abort, alloc: Global, text: &mut Vec<u8>, users: &UserChange) {
    if let Some(place) = place_of(users) {
        push_number(rt, alloc, text, place);
    }
}

fn push_ids(rt: &impl Abort, text: &mut Vec<u8>, ids: &[Id]) {
    for id in ids {
        push(rt, text, b" ");
        append_id(text, *id, None).expect(rt, "memory");
    }
}

fn push_groups(rt: &impl Abort, text: &mut Vec<u8>, users: &UserChange) {
    if let UserChange::Memberships { groups, .. } = users {
        push_ids(rt, text, groups.as_slice());
    }
}

fn push_moved(rt: &impl Abort, alloc: Global, text: &mut Vec<u8>, users: &UserChange) {
    push(rt, text, moved(users));
    push_place(rt, alloc, text, users);
    push(rt, text, moved_end(users));
    push_groups(rt, text, users);
}

/// How many files are still to come.
pub fn count_of(files: Differences<'_>) -> usize {
    let mut count: usize = 0;
    let mut rest = files;
    while let Some(_file) = rest.next() {
        count = count.saturating_add(1);
    }
    count
}

/// How many files a prepared command changes and removes, and how it moves users.
fn staged_text(rt: &impl Abort, alloc: Global, staged: &Staged) -> Vec<u8> {
    let mut text = Vec::new(alloc);
    push(rt, &mut text, b"done: ");
    push_number(rt, alloc, &mut text, count_of(staged.changed()));
    push(rt, &mut text, b" changed, ");
    push_number(rt, alloc, &mut text, count_of(staged.gone()));
    push(rt, &mut text, b" gone");
    push_moved(rt, alloc, &mut text, staged.user_change());
    text
}

/// Runs a command, and returns its outcome as a text.
pub fn outcome(rt: &impl Abort, alloc: Global, state: &mut State, command: Command<'_>) -> Vec<u8> {
    let prepared = state.prepare(alloc, &command);
    drop(command);
    match prepared {
        Ok(staged) => {
            let text = staged_text(rt, alloc, &staged);
            state.commit(staged);
            text
        }
        Err(fault) => fault_text(rt, alloc, &fault),
    }
}

fn mark(kind: Kind) -> u8 {
    match kind {
        Kind::Plain => b'-',
        Kind::Directory => b'd',
    }
}

fn flag(set: bool, letter: u8) -> u8 {
    if set { letter } else { b'-' }
}

fn push_label(rt: &impl Abort, text: &mut Vec<u8>, label: &Label, people: &People) {
    append_id(text, label.owner, people.user_name(label.owner)).expect(rt, "memory");
    push(rt, text, b":");
    append_id(text, label.group, people.group_name(label.group)).expect(rt, "memory");
    push(rt, text, b" ");
    append_short(text, &label.acl, people).expect(rt, "memory");
}

fn push_default(rt: &impl Abort, text: &mut Vec<u8>, dacl: &Option<Acl>, people: &People) {
    if let Some(dacl) = dacl {
        push(rt, text, b"/");
        append_short(text, dacl, people).expect(rt, "memory");
    }
}

fn push_node(rt: &impl Abort, text: &mut Vec<u8>, node: &Node, people: &People) {
    let [setuid, setgid, sticky] = node.flags;
    push(
        rt,
        text,
        &[
            mark(node.kind),
            flag(setuid, b's'),
            flag(setgid, b's'),
            flag(sticky, b't'),
            b' ',
        ],
    );
    push_label(rt, text, &node.label, people);
    push_default(rt, text, &node.dacl, people);
}

/// A file: its kind and flags, owner, group and lists, as `d-s- lisa:staff u::rwx,g::r-x,o::r-x`.
fn shown(rt: &impl Abort, alloc: Global, people: &People, node: Option<&Node>) -> Vec<u8> {
    let mut text = Vec::new(alloc);
    match node {
        Some(node) => push_node(rt, &mut text, node, people),
        None => push(rt, &mut text, b"not recorded"),
    }
    text
}

/// A text is this one.
pub fn expect_text(rt: &impl Abort, found: Vec<u8>, want: &str) {
    assert!(rt; found.as_slice() == want.as_bytes(), "not: {want}");
}

/// Whether a file is as the text describes.
fn is_shown(rt: &impl Abort, alloc: Global, state: &State, name: &[u8], want: &str) -> bool {
    let path = path(rt, alloc, name);
    let text = shown(rt, alloc, state.people(), state.tree().get(&path));
    text.as_slice() == want.as_bytes()
}

/// Whether files are as the texts describe.
pub fn are_shown(rt: &impl Abort, alloc: Global, state: &State, files: &[(&[u8], &str)]) -> bool {
    for (name, want) in files {
        if !is_shown(rt, alloc, state, name, want) {
            return false;
        }
    }
    true
}

/// More files than any tree has here.
const MANY: usize = 20;

fn push_file(rt: &impl Abort, text: &mut Vec<u8>, file: (&Path, &Node), people: &People) {
    push_path(rt, text, Some(file.0));
    push(rt, text, b" ");
    push_node(rt, text, file.1, people);
    push(rt, text, b"\n");
}

fn push_files(rt: &impl Abort, text: &mut Vec<u8>, tree: &Tree, people: &People) {
    let mut files = tree.iter();
    for _ in 0..MANY {
        if let Some(file) = files.next() {
            push_file(rt, text, file, people);
        }
    }
}

fn push_group(rt: &impl Abort, text: &mut Vec<u8>, group: Id, people: &People) {
    push(rt, text, b" ");
    append_id(text, group, people.group_name(group)).expect(rt, "memory");
}

fn push_user(rt: &impl Abort, text: &mut Vec<u8>, user: &Subject, people: &People) {
    append_id(text, user.uid(), people.user_name(user.uid())).expect(rt, "memory");
    push(rt, text, b":");
    for group in user.groups() {
        push_group(rt, text, *group, people);
    }
    push(rt, text, b"\n");
}

fn push_users(rt: &impl Abort, text: &mut Vec<u8>, people: &People) {
    for user in people.subjects() {
        push_user(rt, text, user, people);
    }
}

/// Which texts are loaded, all files and all users with their groups.
pub fn listing(rt: &impl Abort, alloc: Global, tree: &Tree, people: &People) -> Vec<u8> {
    let mut text = Vec::new(alloc);
    let texts = [
        flag(people.passwd_loaded(), b'p'),
        flag(people.group_loaded(), b'g'),
        flag(tree.is_loaded(), b'd'),
        b'\n',
    ];
    push(rt, &mut text, &texts);
    push_files(rt, &mut text, tree, people);
    push_users(rt, &mut text, people);
    text
}

fn push_perm(rt: &impl Abort, text: &mut Vec<u8>, perm: Perm) {
    push(rt, text, b" ");
    push(rt, text, &perm.text());
}

fn push_request(rt: &impl Abort, text: &mut Vec<u8>, requests: Requests, request: Perm) {
    if requests.has(request) {
        push_perm(rt, text, request);
    }
}

fn perm(rt: &impl Abort, number: u8) -> Perm {
    Perm::from_number(number).expect(rt, "permissions")
}

/// What a user is granted on a file: the requests from execute to all.
fn granted_text(rt: &impl Abort, alloc: Global, user: &Subject, label: &Label) -> Vec<u8> {
    let requests = granted(user, label);
    let mut text = Vec::new(alloc);
    for number in 1..8 {
        push_request(rt, &mut text, requests, perm(rt, number));
    }
    text
}

/// A user is granted these requests on a file.
pub fn expect_granted(
    rt: &impl Abort,
    alloc: Global,
    state: &State,
    user: &[u8],
    file: &[u8],
    want: &str,
) {
    let at = state.people().find_user(user).expect(rt, "a user");
    let user = state.people().subject_at(at).expect(rt, "a user");
    let path = path(rt, alloc, file);
    let node = state.tree().get(&path).expect(rt, "a file");
    expect_text(rt, granted_text(rt, alloc, user, &node.label), want);
}
