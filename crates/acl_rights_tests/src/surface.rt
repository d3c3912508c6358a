//! The public surface of acl_rights as a user sees it, with its types written out: the index, under a judge of the
//! user's own.
use crate::followed::{Followed, follow, tried};
use crate::judge::OwnerAlone;
use crate::small_tree::{load, path};
use acl_people::Subjects;
use acl_rights::{
    Acl, Cells, ClassFiles, Command, FileClasses, Id, Index, Judge, Key, Label, Linux, Membership,
    NoMemory, Path, People, Perm, Posix, Requests, Subject, Tree, read_name,
};
use std::alloc::Global;
use std::process::Abort;

/// `gpasswd -a joe adm`.
fn joins(rt: &impl Abort, alloc: Global) -> Command<'static> {
    Command::Gpasswd {
        user: read_name(alloc, b"joe").expect(rt, "memory"),
        group: read_name(alloc, b"adm").expect(rt, "memory"),
        change: Membership::Add,
    }
}

/// The index of the texts' tree after joe joined adm.
fn followed(rt: &impl Abort, alloc: Global) -> Followed {
    let (mut tree, mut people) = load(rt, alloc);
    let gpasswd = joins(rt, alloc);
    let followed = follow(alloc, &mut tree, &mut people, &gpasswd);
    drop(gpasswd);
    drop(tree);
    drop(people);
    followed.expect(rt, "a command")
}

#[test]
fn costs(rt: HostRuntime) {
    let Followed { index, costs } = followed(&rt, rt.alloc());
    drop(index);
    assert!(rt; costs.asked == 2 && costs.looked == 2 && costs.refreshed == 0);
}

#[test]
fn rows_that_are_given_up(rt: HostRuntime) {
    let (tree, people) = load(&rt, rt.alloc());
    let gpasswd = joins(&rt, rt.alloc());
    let costs: Option<(u64, u64)> = tried(rt.alloc(), &tree, &people, &gpasswd);
    drop(gpasswd);
    drop(tree);
    drop(people);
    assert!(rt; costs == Some((2, 0)));
}

/// The index after joe joined adm.
fn kept_index(rt: &impl Abort, alloc: Global) -> Index<OwnerAlone> {
    followed(rt, alloc).index
}

/// The request `-w-`.
fn write_request(rt: &impl Abort) -> Perm {
    Perm::from_number(2).expect(rt, "-w-")
}

fn expect_verdicts(rt: &impl Abort, index: &Index<OwnerAlone>, f: &Path) {
    let verdict: Option<Requests> = index.get(0, f);
    assert!(rt; verdict.expect(rt, "a file").has(write_request(rt)));
    let along: Option<Requests> = index.get_reach(0, f);
    assert!(rt; along.expect(rt, "a file").has(write_request(rt)));
    assert!(rt; index.get(3, f).is_none() && index.get_reach(3, f).is_none());
}

fn expect_row(rt: &impl Abort, index: &Index<OwnerAlone>, f: &Path) {
    let row: Option<&[Requests]> = index.row(f);
    assert!(rt; row.expect(rt, "a file").len() == 3);
}

/// The first user alone was found at a file.
fn expect_first(rt: &impl Abort, who: Result<Option<Vec<usize>>, NoMemory>) {
    let found: Vec<usize> = who.expect(rt, "memory").expect(rt, "a file");
    assert!(rt; found.as_slice() == [0].as_slice());
}

fn expect_who(rt: &impl Abort, alloc: Global, index: &Index<OwnerAlone>, f: &Path) {
    expect_first(rt, index.who(alloc, f, write_request(rt)));
    expect_first(rt, index.who_reach(alloc, f, write_request(rt)));
}

fn expect_may(rt: &impl Abort, alloc: Global, index: &Index<OwnerAlone>) {
    let may: Option<Vec<&Path>> = index.may(alloc, 2, write_request(rt)).expect(rt, "memory");
    assert!(rt; may.expect(rt, "a user").len() == 1);
}

fn expect_may_along_the_path(rt: &impl Abort, alloc: Global, index: &Index<OwnerAlone>) {
    let may: Option<Vec<&Path>> = index
        .may_reach(alloc, 2, write_request(rt))
        .expect(rt, "memory");
    assert!(rt; may.expect(rt, "a user").is_empty());
}

fn expect_classes(rt: &impl Abort, alloc: Global, index: &Index<OwnerAlone>) {
    let mut classes: FileClasses<'_> = index.file_classes(alloc, true);
    let next: Option<&Path> = classes.path();
    assert!(rt; next.expect(rt, "the root").components().is_empty());
    let root: Option<(&Path, usize)> = classes.next(alloc).expect(rt, "memory");
    let (path, class) = root.expect(rt, "the root");
    let row: Option<Cells> = classes.row(alloc, class).expect(rt, "memory");
    let cell: Option<Requests> = classes.cell(class, 0);
    assert!(rt; path.components().is_empty() && cell.is_some());
    assert!(rt; row.expect(rt, "a class").as_slice().len() == 3);
}

fn expect_counted_classes(rt: &impl Abort, alloc: Global, index: &Index<OwnerAlone>) {
    let counted = index.counted_classes(alloc, true).expect(rt, "memory");
    let (classes, found): (FileClasses<'_>, Vec<ClassFiles<'_>>) = counted;
    let first: &ClassFiles<'_> = found.get(0).expect(rt, "a class");
    let row: Option<Cells> = classes.row(alloc, first.class).expect(rt, "memory");
    let path: &Path = first.first;
    let count: usize = first.count;
    assert!(rt; path.components().is_empty() && count == 1 && row.is_some());
}

#[test]
fn verdicts_and_questions(rt: HostRuntime) {
    let index: Index<OwnerAlone> = kept_index(&rt, rt.alloc());
    let f: Path = path(&rt, rt.alloc(), b"f");
    expect_verdicts(&rt, &index, &f);
    expect_row(&rt, &index, &f);
    expect_who(&rt, rt.alloc(), &index, &f);
    expect_may(&rt, rt.alloc(), &index);
    expect_may_along_the_path(&rt, rt.alloc(), &index);
    expect_classes(&rt, rt.alloc(), &index);
    expect_counted_classes(&rt, rt.alloc(), &index);
    drop(index);
}

/// The label of a file with the mode 0700.
fn own_label(rt: &impl Abort, alloc: Global, owner: Id) -> Label {
    Label {
        owner,
        group: owner,
        acl: Acl::minimal(alloc, 0o700).expect(rt, "memory"),
    }
}

#[test]
fn the_check_as_a_judge(rt: HostRuntime) {
    let mut judge: Posix = Posix::new();
    let id: Id = Id::new(1).expect(&rt, "an id");
    let subject: Subject = Subject::from_groups(rt.alloc(), id, &[]).expect(&rt, "memory");
    let label = own_label(&rt, rt.alloc(), id);
    let requests: Requests = judge.verdict(&subject, &label);
    let key: Option<Key> = Posix::sole_key(&subject, &label);
    let asked: u64 = judge.asked();
    assert!(rt; requests.0 == 0xff && asked == 1 && matches!(&key, Some(Key::Owner)));
}

#[test]
fn what_linux_grants_as_a_judge(rt: HostRuntime) {
    let mut judge: Linux = Linux::new();
    let id: Id = Id::new(1).expect(&rt, "an id");
    let subject: Subject = Subject::from_groups(rt.alloc(), id, &[]).expect(&rt, "memory");
    let label = own_label(&rt, rt.alloc(), id);
    let requests: Requests = judge.verdict(&subject, &label);
    let key: Option<Key> = Linux::sole_key(&subject, &label);
    let asked: u64 = judge.asked();
    assert!(rt; requests.0 == 0xff && asked == 1 && matches!(&key, Some(Key::Owner)));
}

/// The verdicts of acl(5)'s check on all users, and how many it counted for `files` files.
fn at_once(alloc: Global, users: &Subjects, label: &Label, files: u64) -> Option<(Vec<u8>, u64)> {
    if files == 0 || files > 1000 || users.len() > 1000 {
        return None;
    }
    let mut judge = Posix::new();
    let mut row = vec![in alloc; Requests::none(); users.len()].ok()?;
    judge.verdicts(users, label, files, &mut row);
    let mut bytes = Vec::new(alloc);
    for requests in &row {
        bytes.push(requests.bits()).ok()?;
    }
    Some((bytes, judge.asked()))
}

/// The same on a file of the tree, for three files.
fn on_file(
    rt: &impl Abort,
    alloc: Global,
    tree: &Tree,
    people: &People,
    path: &Path,
) -> (Vec<u8>, u64) {
    let file = tree.get(path).expect(rt, "a file");
    let users: &Subjects = people.all_subjects();
    at_once(alloc, users, &file.label, 3).expect(rt, "users")
}

#[test]
fn the_check_of_all_users(rt: HostRuntime) {
    let (tree, people) = load(&rt, rt.alloc());
    let log: Path = path(&rt, rt.alloc(), b"log");
    let (row, asked) = on_file(&rt, rt.alloc(), &tree, &people, &log);
    drop(tree);
    drop(people);
    assert!(rt; row.as_slice() == [0x55, 0x01, 0x01].as_slice() && asked == 9);
}
