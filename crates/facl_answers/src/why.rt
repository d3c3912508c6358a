//! What `why` prints: the entries by which a judge decides on a user.

ghost use Rattle.std.specs.Prelude.{◌≡◌, ◌≢◌, ◌++◌, ◌∷◌, [], None, IfOk, IfErr, OnOk, false};
ghost use Rattle.acl_names.specs.Appends.{Appends};
ghost use Rattle.acl_people.specs.KnownPeople.{naming_of};
ghost use Rattle.acl_tree.specs.Walks.{ancestors};
ghost use Rattle.acl_tree.specs.Operands.{first_missing, IsMissing};
ghost use Rattle.facl_answers.specs.Inner.{is_chosen, asked_paths};
ghost use Rattle.facl_answers.specs.WhyText.{deciding_text, files_asked, why_record, why_text};

use acl_entry::{Entry, Id, Key, Label, Subject};
use acl_names::Path;
use acl_people::People;
use acl_rights::{IndexedState, Judge};
use acl_text::{Effective, Names, Which, push_line};
use acl_tree::{FoundFile, Paths, Selection, Tree, TreeFault};
use facl_output::push_path;
use std::alloc::{AllocError, Global};
use std::cmp::Ordering;

/// Tells whether an entry is that of the key, if there is one, or else for one of the user's groups.
fn is_chosen(subject: &Subject, owning: Id, sole: &Option<Key>, entry: &Entry) -> bool
    ensures { result ≡ is_chosen subject.now owning sole.now entry.now }
{
    match sole {
        Some(key) => key.order(entry.key) == Ordering::Equal,
        None => subject.matches(owning, &entry.key),
    }
}

/// Adds the entries that decide on a user.
fn push_deciding<J: Judge, N: Names>(
    text: &mut Vec<u8>,
    names: &N,
    subject: &Subject,
    label: &Label,
) -> Result<(), AllocError>
    ensures { Appends result text.old text.new (deciding_text (N.naming names.now) J.decider_of subject.now label.now) }
{
    let sole = J::sole_key(subject, label);
    let mask = label.acl.get(Key::Mask);
    for entry in label.acl.entries() {
        if is_chosen(subject, label.group, &sole, entry) {
            push_line(
                text,
                Effective::WhereMasked,
                Which::Access,
                &mask,
                entry,
                names,
            )?;
        }
    }
    Ok(())
}

fn push_record<J: Judge, N: Names>(
    text: &mut Vec<u8>,
    names: &N,
    subject: &Subject,
    file: &FoundFile<'_>,
) -> Result<(), AllocError>
    ensures { Appends result text.old text.new (why_record (N.naming names.now) J.decider_of subject.now file.now) }
{
    push_path(text, file)?;
    push_deciding::<J, N>(text, names, subject, &file.node().label)?;
    text.push(b'\n')?;
    Ok(())
}

fn push_records<J: Judge, N: Names>(
    text: &mut Vec<u8>,
    names: &N,
    subject: &Subject,
    files: &[FoundFile<'_>],
) -> Result<(), AllocError>
    ensures { Appends result text.old text.new (why_text (N.naming names.now) J.decider_of subject.now files.now) }
{
    for file in files {
        push_record::<J, N>(text, names, subject, file)?;
    }
    Ok(())
}

/// Writes what `why` prints of a user and these files, in their order: for each a line of its path, the entries of
/// its access list by which the judge decides on the user, as getfacl(1) prints them without options, and an empty line.
pub fn write_why<J: Judge>(
    alloc: Global,
    indexed: &IndexedState<J>,
    subject: &Subject,
    files: &[FoundFile<'_>],
) -> Result<Vec<u8>, AllocError>
    ensures { IfOk result (λ text. text.items ≡ why_text (naming_of indexed.now.people) J.decider_of subject.now files.now) }
{
    let mut text = Vec::new(alloc);
    let people = indexed.state().people();
    push_records::<J, People>(&mut text, people, subject, files)?;
    Ok(text)
}

/// Adds a path, after its recorded ancestors.
fn push_way(alloc: Global, all: &mut Vec<Path>, tree: &Tree, path: &Path) -> Result<(), AllocError>
    ensures { OnOk result (all.new.items ≡ all.old.items ++ (ancestors path.now tree.now.files ++ path.now ∷ [])) }
{
    let mut way = tree.ancestors(alloc, path)?;
    way.push(path.try_clone(alloc)?)?;
    all.append(&mut way)?;
    Ok(())
}

/// Returns the paths whose files are printed: with `along` each after its recorded ancestors.
fn asked_paths(alloc: Global, tree: &Tree, paths: Paths, along: bool) -> Result<Paths, AllocError>
    ensures { IfOk result (λ asked. asked ≡ asked_paths along paths tree.now.files) }
{
    if along {
        let mut all = Vec::new(alloc);
        for path in paths.as_slice() {
            push_way(alloc, &mut all, tree, path)?;
        }
        return Ok(Paths::new(all));
    }
    Ok(paths)
}

/// Returns the files of these paths, each once, in path order; with `along` their recorded ancestors too.
///
/// # Errors
///
/// `NoSuchFile` of the first path that is not recorded, or `NoMemory`.
pub fn files_asked<'a>(
    alloc: Global,
    tree: &'a Tree,
    paths: Paths,
    along: bool,
) -> Result<Vec<FoundFile<'a>>, TreeFault>
    ensures all { IfOk result (λ files. files.items ≡ files_asked along paths tree.now.files) }
    ensures there { OnOk result (first_missing paths tree.now.files ≡ None) }
    ensures reported { IfErr result (λ fault. fault ≢ TreeFault.NoMemory → IsMissing fault (first_missing paths tree.now.files)) }
{
    tree.soundness_law();
    let asked = asked_paths(alloc, tree, paths, along)?;
    let selection = Selection {
        operands: &asked,
        recursive: false,
    };
    let files = tree.files(alloc, &selection)?;
    Ok(files)
}
