//! The public surface as a user sees it, with its types written out: people, the tree, and commands.
use crate::commands::{Line, command, gpasswd, records, rm};
use crate::rows::path;
use crate::shown::count_of;
use crate::small_tree::{accept, load};
use acl_tree::{
    Command, EditFault, FilesFinder, Id, Kind, Membership, Names, NoMemory, Node, Path, People,
    Staged, Subject, Table, Tree, TreeFault, is_same_node, label_hash, node_hash,
};
use std::alloc::Global;
use std::process::Abort;

fn expect_people(rt: &impl Abort, people: &People) {
    let count: usize = people.users();
    let joe: Option<usize> = people.find_user(b"joe");
    assert!(rt; count == 3 && joe == Some(1));
    let shown: Option<&[u8]> = people.name(1);
    assert!(rt; shown == Some(b"joe".as_slice()) && people.name(3).is_none());
}

fn expect_subject(rt: &impl Abort, alloc: Global, people: &People) {
    let subject: Result<Option<Subject>, NoMemory> = people.subject(alloc, 1);
    let subject: Subject = subject.expect(rt, "memory").expect(rt, "a user");
    assert!(rt; subject.uid().number() == 1000 && subject.groups().len() == 1);
}

fn expect_names(rt: &impl Abort, people: &People) {
    let id: Option<Id> = people.user_id(b"ann");
    assert!(rt; people.user_name(id.expect(rt, "ann")) == Some(b"ann".as_slice()));
    let group: Option<Id> = people.group_id(b"adm");
    assert!(rt; people.group_name(group.expect(rt, "adm")) == Some(b"adm".as_slice()));
}

/// The kind of the last file.
fn last_kind(tree: &Tree) -> Option<Kind> {
    let mut last: Option<Kind> = None;
    for file in tree.iter() {
        last = Some(file.1.kind);
    }
    last
}

fn expect_files(rt: &impl Abort, tree: &Tree, log: &Path) {
    let node: Option<&Node> = tree.get(log);
    assert!(rt; node.expect(rt, "a file").label.group.number() == 70);
    assert!(rt; last_kind(tree) == Some(Kind::Plain));
}

fn expect_look_ups(rt: &impl Abort, tree: &Tree, log: &Path, root: &Path) {
    let mut finder: FilesFinder<'_> = tree.finder();
    let node: Option<&Node> = finder.get(log);
    assert!(rt; node.expect(rt, "a file").label.group.number() == 70);
    assert!(rt; finder.get(root).is_some());
}

fn expect_hashes(rt: &impl Abort, tree: &Tree, log: &Path, root: &Path) {
    let node: &Node = tree.get(log).expect(rt, "a file");
    let other: &Node = tree.get(root).expect(rt, "a directory");
    let same: bool = is_same_node(node, other);
    assert!(rt; !same);
    let hash: u64 = node_hash(node);
    assert!(rt; hash != node_hash(other));
    let label: u64 = label_hash(&node.label);
    assert!(rt; label != label_hash(&other.label));
}

fn expect_above(rt: &impl Abort, alloc: Global, tree: &Tree, log: &Path) {
    let above: Result<Vec<Path>, NoMemory> = tree.ancestors(alloc, log);
    assert!(rt; above.expect(rt, "memory").len() == 1);
}

fn expect_within(rt: &impl Abort, alloc: Global, tree: &Tree, root: &Path) {
    let within: Result<Vec<Path>, NoMemory> = tree.within(alloc, root);
    assert!(rt; within.expect(rt, "memory").len() == 5);
}

#[test]
fn people_and_files(rt: HostRuntime) {
    let (tree, people) = load(&rt, rt.alloc());
    expect_people(&rt, &people);
    expect_subject(&rt, rt.alloc(), &people);
    expect_names(&rt, &people);
    let log: Path = path(&rt, rt.alloc(), b"log");
    let root: Path = path(&rt, rt.alloc(), b".");
    expect_files(&rt, &tree, &log);
    expect_look_ups(&rt, &tree, &log, &root);
    expect_hashes(&rt, &tree, &log, &root);
    expect_above(&rt, rt.alloc(), &tree, &log);
    expect_within(&rt, rt.alloc(), &tree, &root);
    drop(tree);
    drop(people);
}

/// A tree without a file, and nobody.
fn nothing(rt: &impl Abort, alloc: Global) -> (Tree, People) {
    let tree: Result<Tree, NoMemory> = Tree::new(alloc);
    let people: Result<People, NoMemory> = People::new(alloc);
    (tree.expect(rt, "memory"), people.expect(rt, "memory"))
}

/// Loads a text into a state in which it is not loaded.
fn put(
    rt: &impl Abort,
    alloc: Global,
    tree: &mut Tree,
    people: &mut People,
    which: Table,
    bytes: &[u8],
) {
    let load = Command::Load { which, bytes };
    let prepared: Result<Staged, TreeFault> = tree.prepare(alloc, people, &load);
    drop(load);
    tree.commit(people, prepared.expect(rt, "a text"));
}

#[test]
fn loads(rt: HostRuntime) {
    let (mut tree, mut people) = nothing(&rt, rt.alloc());
    assert!(rt; tree.iter().next().is_none() && people.users() == 0);
    put(
        &rt,
        rt.alloc(),
        &mut tree,
        &mut people,
        Table::Passwd,
        b"al:x:1:50:::\n",
    );
    put(
        &rt,
        rt.alloc(),
        &mut tree,
        &mut people,
        Table::Group,
        b"staff:x:50:\n",
    );
    put(
        &rt,
        rt.alloc(),
        &mut tree,
        &mut people,
        Table::Dump,
        b"# file: .\n# owner: al\n# group: staff\nuser::rwx\ngroup::r-x\nother::r-x\n",
    );
    assert!(rt; people.users() == 1 && tree.iter().next().is_some());
    drop(tree);
    drop(people);
}

/// What a command stages, on the texts' tree: how many files changed and are gone, whose groups changed and how many
/// these are, who joined, and who left.
type Counts = (
    usize,
    usize,
    Option<(usize, usize)>,
    Option<usize>,
    Option<usize>,
);

fn counts_of(staged: &Staged) -> Counts {
    let moved: Option<(usize, &[Id])> = staged.moved();
    let joined: Option<usize> = staged.joined();
    let left: Option<usize> = staged.left();
    (
        count_of(staged.changed()),
        count_of(staged.gone()),
        moved.map(|(user, groups)| (user, groups.len())),
        joined,
        left,
    )
}

#[test]
fn a_prepared_state(rt: HostRuntime) {
    let (tree, people) = load(&rt, rt.alloc());
    let joins: Command<'_> = gpasswd(&rt, rt.alloc(), Membership::Add);
    let prepared: Result<Staged, TreeFault> = tree.prepare(rt.alloc(), &people, &joins);
    drop(joins);
    let staged: Staged = prepared.expect(&rt, "a command");
    let after: (&Tree, &People) = (staged.tree(), staged.people());
    assert!(rt; after.0.get(&path(&rt, rt.alloc(), b".")).is_some() && after.1.users() == 3);
    staged.give_up();
}

/// A command, and what it stages on the texts' tree.
struct Row {
    name: &'static str,
    line: Line,
    counts: Counts,
}

static ROWS: [Row; 9] = [
    Row {
        name: "a chmod",
        line: Line::Chmod,
        counts: (1, 0, None, None, None),
    },
    Row {
        name: "an edit",
        line: Line::Flatten,
        counts: (1, 0, None, None, None),
    },
    Row {
        name: "a new file",
        line: Line::Creat,
        counts: (1, 0, None, None, None),
    },
    Row {
        name: "a removal",
        line: Line::Rm,
        counts: (0, 1, None, None, None),
    },
    Row {
        name: "a restore",
        line: Line::Restore,
        counts: (1, 0, None, None, None),
    },
    Row {
        name: "a membership",
        line: Line::Gpasswd,
        counts: (0, 0, Some((1, 1)), None, None),
    },
    Row {
        name: "a primary group",
        line: Line::Usermod,
        counts: (0, 0, Some((1, 2)), None, None),
    },
    Row {
        name: "a new user",
        line: Line::Useradd,
        counts: (0, 0, None, Some(3), None),
    },
    Row {
        name: "a user who goes",
        line: Line::Userdel,
        counts: (0, 0, None, None, Some(1)),
    },
];

/// What a command stages, which is then given up.
fn staged_counts(rt: &impl Abort, staged: Result<Staged, TreeFault>) -> Counts {
    let staged: Staged = staged.expect(rt, "a command");
    let counts = counts_of(&staged);
    staged.give_up();
    counts
}

fn expect_row(rt: &impl Abort, alloc: Global, tree: &Tree, people: &People, row: &Row) {
    let command = command(rt, alloc, &row.line);
    let prepared: Result<Staged, TreeFault> = tree.prepare(alloc, people, &command);
    drop(command);
    assert!(rt; staged_counts(rt, prepared) == row.counts, "{}", row.name);
}

fn expect_rows(rt: &impl Abort, alloc: Global, tree: &Tree, people: &People, rows: &[Row]) {
    for row in rows {
        expect_row(rt, alloc, tree, people, row);
    }
}

#[test]
fn commands(rt: HostRuntime) {
    let (tree, people) = load(&rt, rt.alloc());
    expect_rows(&rt, rt.alloc(), &tree, &people, &ROWS);
    drop(tree);
    drop(people);
}

const ONE_CHANGES: &[u8] = b"# file: f\nuser::rwx\ngroup::r-x\nother::---\n\n\
# file: log\nuser::rw-\ngroup::r--\nother::---\n";

/// Two records; the file of the second one stays as it is. So it keeps the number of its node, and one file alone likely
/// changed.
#[test]
fn a_restored_file_that_stays(rt: HostRuntime) {
    let (tree, people) = load(&rt, rt.alloc());
    let restore: Command<'_> = Command::Restore {
        records: records(&rt, rt.alloc(), ONE_CHANGES),
    };
    let prepared: Result<Staged, TreeFault> = tree.prepare(rt.alloc(), &people, &restore);
    drop(restore);
    let staged: Staged = prepared.expect(&rt, "a command");
    let likely: usize = staged.likely_changed();
    staged.give_up();
    drop(tree);
    drop(people);
    assert!(rt; likely == 1);
}

/// The number of a fault among the faults of a command.
fn number(fault: TreeFault) -> u8 {
    match fault {
        TreeFault::NoSuchFile { path: _ } => 1,
        TreeFault::NotDirectory { path: _ } => 2,
        TreeFault::Exists { path: _ } => 3,
        TreeFault::IsDirectory { path: _ } => 4,
        TreeFault::NoSuchUser { name: _ } => 5,
        TreeFault::NoSuchGroup { name: _ } => 6,
        TreeFault::NotMember => 7,
        TreeFault::Edit {
            path: _,
            fault: EditFault::DefaultOnFile | EditFault::List(_, _) | EditFault::NoMemory,
        } => 8,
        TreeFault::TooMany => 9,
        TreeFault::AlreadyLoaded => 10,
        TreeFault::Text(_) => 11,
        TreeFault::NoMemory => 12,
        TreeFault::UserExists { name: _ } => 13,
        TreeFault::UidExists { id: _ } => 14,
        TreeFault::TooManyUsers => 15,
    }
}

/// The number of the fault of a command.
fn refused(alloc: Global, tree: &Tree, people: &People, command: &Command<'_>) -> u8 {
    match tree.prepare(alloc, people, command) {
        Ok(staged) => {
            staged.give_up();
            0
        }
        Err(fault) => number(fault),
    }
}

#[test]
fn a_refused_command(rt: HostRuntime) {
    let (tree, people) = load(&rt, rt.alloc());
    let leave: Command<'_> = gpasswd(&rt, rt.alloc(), Membership::Remove);
    let fault: u8 = refused(rt.alloc(), &tree, &people, &leave);
    drop(leave);
    drop(tree);
    drop(people);
    assert!(rt; fault == 7);
}

#[test]
fn an_accepted_command(rt: HostRuntime) {
    let (mut tree, mut people) = load(&rt, rt.alloc());
    let removal: Command<'_> = rm(&rt, rt.alloc());
    accept(&rt, rt.alloc(), &mut tree, &mut people, &removal);
    drop(removal);
    assert!(rt; tree.get(&path(&rt, rt.alloc(), b"f")).is_none());
    drop(tree);
    drop(people);
}
