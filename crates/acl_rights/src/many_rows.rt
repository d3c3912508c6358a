//! Rows of verdicts by kinds after many files changed: one for each number of the files' map that files have. Each
//! number is judged at most once.

ghost use Rattle.std.specs.Prelude.{◌≡◌, ◌+◌, ◌*◌, ◌++◌, ◌∷◌, ◌<◌, ◌≤◌, ◌^◌, [], true, length, IfOk, IfSome};
ghost use Rattle.kinds.specs.Numbered.{entries_in};
ghost use Rattle.kinds.specs.Given.{shared_nodes, HaveNodes};
ghost use Rattle.kinds.specs.Placed.{placed};
ghost use Rattle.kinds.specs.Renewed.{renewed_before};
ghost use Rattle.path_classes.specs.ClassedRows.{AreCounted};
ghost use Rattle.acl_rights.specs.KindRows.{label_row, node_row, rowed, shared_rows, AreRowsOf, AreRows, AreOfEntries, AsManyAreSame, IsAmongRows};

use crate::changed_rows::{is_same_label, judged_row};
use crate::judge::Judge;
use crate::kept_labels::kept_labels;
use crate::kind_rows::{KindRows, hints_of};
use acl_edit::Node;
use acl_entry::Label;
use acl_people::Subjects;
use acl_tree::label_hash;
use kinds::KindMap;
use path_classes::{ClassedRows, LabelRow};
use std::alloc::{AllocError, Global};
use std::collections::BTreeMap;
use std::rc::Rc;

/// Known rows, and their places by the hashes of their labels.
#[derive(Drop)]
struct KnownRows {
    rows: Vec<Rc<LabelRow>>,
    by_hash: BTreeMap<u64, usize>,
}

impl KnownRows {
    /// Returns the row of a label, if it is the last one of its hash.
    fn row(&self, hash: u64, label: &Label) -> Result<Option<Rc<LabelRow>>, AllocError>
        ensures { IfOk result (λ some. IfSome some (λ row. IsAmongRows label.now row.value (shared_rows self.now.rows.items))) }
    {
        let Some(at) = self.by_hash.get(&hash) else {
            return Ok(None);
        };
        let Some(row) = self.rows.get(*at) else {
            return Ok(None);
        };
        if is_same_label(&row.label, label) {
            Ok(Some(row.clone()?))
        } else {
            Ok(None)
        }
    }

    /// Adds a row, by the hash of its label.
    fn put(&mut self, hash: u64, row: Rc<LabelRow>) -> Result<(), AllocError>
        ensures { IfOk result (λ _. self.new.rows.items ≡ self.old.rows.items ++ row ∷ []) }
    {
        self.by_hash.insert(hash, self.rows.len())?;
        self.rows.push(row)?;
        Ok(())
    }
}

/// Adds the row of a number, if a file has the number.
fn put_number(
    known: &mut KnownRows,
    rows: &KindMap<LabelRow>,
    number: usize,
) -> Result<(), AllocError>
    requires { AreOfEntries (shared_rows known.old.rows.items) (entries_in rows.now) }
    ensures { IfOk result (λ _. AreOfEntries (shared_rows known.new.rows.items) (entries_in rows.now)) }
{
    let some = rows.shared_node(number)?;
    let Some(row) = some else {
        return Ok(());
    };
    let hash = label_hash(&row.label);
    known.put(hash, row)?;
    Ok(())
}

/// Collects the rows that files have.
fn known_rows(alloc: Global, rows: &KindMap<LabelRow>) -> Result<KnownRows, AllocError>
    ensures { IfOk result (λ known. AreOfEntries (shared_rows known.rows.items) (entries_in rows.now)) }
{
    let mut known = KnownRows {
        rows: Vec::new(alloc),
        by_hash: BTreeMap::new(alloc),
    };
    for number in 0..rows.numbers_len() {
        put_number(&mut known, rows, number)?;
    }
    Ok(known)
}

/// Returns the row of a label: one that is known, or else judges the label once and adds its row.
fn row_of_label<J: Judge>(
    alloc: Global,
    judge: &mut J,
    users: &Subjects,
    known: &mut KnownRows,
    label: &Label,
) -> Result<Rc<LabelRow>, AllocError>
    requires room { J.asked_of judge.old + length users.now < 2 ^ 64 }
    requires known { AreRows J.verdict_of users.now (shared_rows known.old.rows.items) }
    ensures row { IfOk result (λ row. row.value ≡ label_row J.verdict_of users.now label.now) }
    ensures known { IfOk result (λ _. AreRows J.verdict_of users.now (shared_rows known.new.rows.items)) }
    ensures at_most { J.asked_of judge.new ≤ J.asked_of judge.old + length users.now }
{
    let hash = label_hash(label);
    let some = known.row(hash, label)?;
    if let Some(row) = some {
        return Ok(row);
    }
    let row = judged_row(alloc, judge, users, label)?;
    let same = row.clone()?;
    known.put(hash, same)?;
    Ok(row)
}

/// Returns for each number its row, if a file has the number.
fn rows_of_numbers<J: Judge>(
    alloc: Global,
    judge: &mut J,
    users: &Subjects,
    known: KnownRows,
    files: &KindMap<Node>,
) -> Result<Vec<Option<Rc<LabelRow>>>, AllocError>
    requires room { J.asked_of judge.old + length files.now.0.0 * length users.now < 2 ^ 64 }
    requires known { AreRows J.verdict_of users.now (shared_rows known.rows.items) }
    ensures rows { IfOk result (λ rows. shared_nodes rows.items ≡ renewed_before (node_row J.verdict_of users.now) files.now.0 (length files.now.0.0)) }
    ensures at_most { J.asked_of judge.new ≤ J.asked_of judge.old + length files.now.0.0 * length users.now }
{
    let mut known = known;
    let mut rows = Vec::with_capacity(alloc, files.numbers_len())?;
    for number in 0..files.numbers_len() {
        let Some(node) = files.used(number) else {
            rows.push(None)?;
            continue;
        };
        let row = row_of_label(alloc, judge, users, &mut known, &node.label)?;
        rows.push(Some(row))?;
    }
    Ok(rows)
}

impl KindRows {
    /// Replaces the rows of the same labels, which keep their numbers; and counts the files whose answers along their
    /// paths may be others.
    fn with_own_rows(
        &self,
        alloc: Global,
        map: KindMap<LabelRow>,
    ) -> Result<(KindRows, usize), AllocError>
        requires { map.1 ≡ self.now.rows.1 }
        ensures rows { IfOk result (λ new. entries_in new.0.rows ≡ entries_in map) }
        ensures least { IfOk result (λ new. AreCounted self.now.rows new.0.rows new.1) }
        ensures most { IfOk result (λ new. new.1 ≤ length map.1) }
    {
        let hints = hints_of(alloc, &map)?;
        let before = self.rows.rows();
        let tagged = before.replaced(alloc, map)?;
        let new = self.rows.with_counted_rows(alloc, tagged)?;
        let (rows, count) = new;
        Ok((KindRows { rows, hints }, count))
    }

    /// Returns the rows of a tree's files, given one for each number of the tree: the labels' own numbers may stay if
    /// files that had one label have one again, and `same` says that the files are the same as before if they are as
    /// many. Counts also the files whose answers along their paths may be new or other ones.
    fn with_rows_of(
        &self,
        alloc: Global,
        files: &KindMap<Node>,
        nodes: &[Option<Rc<LabelRow>>],
        same: bool,
    ) -> Result<(KindRows, usize), AllocError>
        requires long { length nodes.now ≡ length files.now.0.0 }
        requires used { HaveNodes (shared_nodes nodes.now) files.now.1 }
        requires same { same ≡ true → AsManyAreSame (entries_in self.now.rows) (entries_in files.now) }
        requires few { length (entries_in files.now) < 2 ^ 64 }
        ensures rows { IfOk result (λ new. entries_in new.0.rows ≡ placed (shared_nodes nodes.now) files.now.1) }
        ensures least { IfOk result (λ new. AreCounted self.now.rows new.0.rows new.1) }
        ensures most { IfOk result (λ new. new.1 ≤ length (entries_in files.now)) }
    {
        let _files = files.kinds();
        let before = self.rows.rows();
        let kept = kept_labels(alloc, before.map(), files, nodes, same)?;
        if let Some(map) = kept {
            let _labels = map.kinds();
            return self.with_own_rows(alloc, map);
        }
        let map = files.with_nodes(alloc, nodes)?;
        let hints = hints_of(alloc, &map)?;
        let tagged = before.replaced(alloc, map)?;
        let rows = ClassedRows::of(alloc, tagged)?;
        Ok((KindRows { rows, hints }, files.len()))
    }

    /// Returns the rows of the files of a map by kinds. Labels and path classes may keep their numbers if files that had
    /// one label have one again, the files are as many as before and `same` says that they are the same then. Each
    /// number of the map is judged at most once, and mostly not if a row of its label is known. Counts also the files
    /// whose answers along their paths may be new or other ones.
    pub fn of_kinds<J: Judge>(
        &self,
        alloc: Global,
        judge: &mut J,
        files: &KindMap<Node>,
        users: &Subjects,
        same: bool,
    ) -> Result<(KindRows, usize), AllocError>
        requires room { J.asked_of judge.old + length files.now.0.0 * length users.now < 2 ^ 64 }
        requires known { AreRowsOf J.verdict_of users.now (entries_in self.now.rows) }
        requires same { same ≡ true → AsManyAreSame (entries_in self.now.rows) (entries_in files.now) }
        requires few { length (entries_in files.now) < 2 ^ 64 }
        ensures rows { IfOk result (λ new. entries_in new.0.rows ≡ rowed J.verdict_of users.now (entries_in files.now)) }
        ensures least { IfOk result (λ new. AreCounted self.now.rows new.0.rows new.1) }
        ensures most { IfOk result (λ new. new.1 ≤ length (entries_in files.now)) }
        ensures at_most { J.asked_of judge.new ≤ J.asked_of judge.old + length files.now.0.0 * length users.now }
    {
        let _kinds = files.kinds();
        let before = self.rows.rows();
        let known = known_rows(alloc, before.map())?;
        let nodes = rows_of_numbers(alloc, judge, users, known, files)?;
        let new = self.with_rows_of(alloc, files, &nodes, same)?;
        Ok(new)
    }
}
