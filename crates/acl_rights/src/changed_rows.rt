//! Rows of verdicts by kinds after some files changed: each user is judged at most once for each of these.

ghost use Rattle.std.specs.Prelude.{◌≡◌, ◌+◌, ◌*◌, ◌++◌, ◌<◌, ◌≤◌, ◌^◌, ℕ, Some, true, length, map, slice_get, IfOk, IfSome, OnOk};
ghost use Rattle.path_map.specs.Entries.{IsInOrder, seen};
ghost use Rattle.path_map.specs.Merged.{has, merged, put_all};
ghost use Rattle.kinds.specs.Numbered.{entries_in};
ghost use Rattle.kinds.specs.Placed.{given};
ghost use Rattle.kinds.specs.Tagged.{SameBut};
ghost use Rattle.path_classes.specs.ClassedRows.{AreCounted, paths_of};
ghost use Rattle.path_classes.specs.ClassesWithin.{inside};
ghost use Rattle.acl_rights.specs.KindRows.{label_row, some_row, rowed_labels, with_label, borrowed_labels, AreRowsOf, HasLabel, IsPlaced, ArePlaced, PutsLabels, BeginWithRoot};

use crate::hints::Hints;
use crate::judge::Judge;
use crate::judged::judged;
use crate::kind_rows::{KindRows, with_row};
use acl_entry::Label;
use acl_names::Path;
use acl_people::Subjects;
use acl_tree::label_hash;
use kinds::{GivenNode, KindMap, PlacedMap, push_found};
use path_classes::LabelRow;
use std::alloc::{AllocError, Global};
use std::collections::BTreeMap;
use std::rc::Rc;

/// Tells whether owner, group and access list are the same.
pub(crate) fn is_same_label(one: &Label, other: &Label) -> bool
    ensures { result ≡ true → one.now ≡ other.now }
{
    one.owner == other.owner && one.group == other.group && one.acl.same(&other.acl)
}

/// Returns the place, if it has this label.
fn place_if(labels: &[&Label], at: usize, label: &Label) -> Option<usize>
    ensures { IfSome result (λ n. slice_get (borrowed_labels labels.now) n ≡ Some label.now) }
{
    let other = labels.get(at)?;
    if is_same_label(other, label) {
        Some(at)
    } else {
        None
    }
}

/// Returns the place of a label, if it is the last one of its hash.
fn place_by_hash(
    labels: &[&Label],
    by_hash: &BTreeMap<u64, usize>,
    hash: u64,
    label: &Label,
) -> Option<usize>
    ensures { IfSome result (λ n. slice_get (borrowed_labels labels.now) n ≡ Some label.now) }
{
    let at = *by_hash.get(&hash)?;
    place_if(labels, at, label)
}

/// Returns the place of a label: `last`, or one by its hash; or adds it. Labels of one hash may be added more than
/// once.
fn place_of<'a>(
    labels: &mut Vec<&'a Label>,
    by_hash: &mut BTreeMap<u64, usize>,
    last: usize,
    label: &'a Label,
) -> Result<usize, AllocError>
    ensures { IfOk result (λ at. IsPlaced label.now (borrowed_labels labels.old.items) (borrowed_labels labels.new.items) at) }
{
    if let Some(at) = place_if(labels, last, label) {
        return Ok(at);
    }
    let hash = label_hash(label);
    if let Some(at) = place_by_hash(labels, by_hash, hash, label) {
        return Ok(at);
    }
    let at = labels.len();
    by_hash.insert(hash, at)?;
    labels.push(label)?;
    Ok(at)
}

/// Labels, mostly distinct, and for each path the place of its label; and places of labels by their hashes.
#[derive(Drop)]
struct LabelPlaces<'a> {
    labels: Vec<&'a Label>,
    places: Vec<(&'a Path, usize)>,
    by_hash: BTreeMap<u64, usize>,
}

/// Lists the labels of some paths, each mostly once, and for each path the place of its label.
fn places_of<'a>(
    alloc: Global,
    paths: &[(&'a Path, &'a Label)],
) -> Result<LabelPlaces<'a>, AllocError>
    ensures { IfOk result (λ new. ArePlaced (map with_label paths.now) (borrowed_labels new.labels.items) (map seen new.places.items)) }
{
    let mut labels = Vec::new(alloc);
    let mut by_hash = BTreeMap::new(alloc);
    let mut places = Vec::with_capacity(alloc, paths.len())?;
    let mut last = 0;
    for path in paths {
        last = place_of(&mut labels, &mut by_hash, last, path.1)?;
        places.push((path.0, last))?;
    }
    Ok(LabelPlaces {
        labels,
        places,
        by_hash,
    })
}

/// Judges a label once.
pub(crate) fn judged_row<J: Judge>(
    alloc: Global,
    judge: &mut J,
    users: &Subjects,
    label: &Label,
) -> Result<Rc<LabelRow>, AllocError>
    requires { J.asked_of judge.old + length users.now < 2 ^ 64 }
    ensures row { IfOk result (λ new. new.value ≡ label_row J.verdict_of users.now label.now) }
    ensures at_most { J.asked_of judge.new ≤ J.asked_of judge.old + length users.now }
{
    let row = judged(alloc, judge, users, label, 1)?;
    let new = with_row(alloc, label, row)?;
    Ok(Rc::new(alloc, new)?)
}

/// Rows with their labels, and hints at the numbers of labels.
#[derive(Clone, Copy)]
pub(crate) struct HintedRows<'r, 'h> {
    pub rows: &'r KindMap<LabelRow>,
    pub hints: &'h Hints,
}

/// Returns the number that hints give for a label, if a file has this number and its label is this one.
fn known_number(known: &HintedRows<'_, '_>, label: &Label) -> Option<usize>
    ensures { IfSome result (λ number. HasLabel label.now number known.now.rows.now) }
{
    let number = known.hints.get(label_hash(label))?;
    let row = known.rows.used(number)?;
    if is_same_label(&row.label, label) {
        Some(number)
    } else {
        None
    }
}

/// Returns the row of a label: that of a file that has it, or else judges it once.
fn given_row<J: Judge>(
    alloc: Global,
    judge: &mut J,
    users: &Subjects,
    known: &HintedRows<'_, '_>,
    label: &Label,
) -> Result<GivenNode<LabelRow>, AllocError>
    requires room { J.asked_of judge.old + length users.now < 2 ^ 64 }
    requires known { AreRowsOf J.verdict_of users.now (entries_in known.now.rows.now) }
    ensures row { IfOk result (λ node. given known.now.rows.now.0 node ≡ Some (label_row J.verdict_of users.now label.now)) }
    ensures at_most { J.asked_of judge.new ≤ J.asked_of judge.old + length users.now }
{
    if let Some(number) = known_number(known, label) {
        return Ok(GivenNode::Known(number));
    }
    let row = judged_row(alloc, judge, users, label)?;
    Ok(GivenNode::New(row))
}

/// Returns the rows of labels, each judged at most once.
fn given_rows<J: Judge>(
    alloc: Global,
    judge: &mut J,
    users: &Subjects,
    known: &HintedRows<'_, '_>,
    labels: &[&Label],
) -> Result<Vec<GivenNode<LabelRow>>, AllocError>
    requires room { J.asked_of judge.old + length labels.now * length users.now < 2 ^ 64 }
    requires known { AreRowsOf J.verdict_of users.now (entries_in known.now.rows.now) }
    ensures rows { IfOk result (λ nodes. map (given known.now.rows.now.0) nodes.items ≡ map (some_row J.verdict_of users.now) (borrowed_labels labels.now)) }
    ensures at_most { J.asked_of judge.new ≤ J.asked_of judge.old + length labels.now * length users.now }
{
    let mut nodes: Vec<GivenNode<LabelRow>> = Vec::with_capacity(alloc, labels.len())?;
    for at in 0..labels.len() {
        let node = given_row(alloc, judge, users, known, labels[at])?;
        nodes.push(node)?;
    }
    Ok(nodes)
}

fn has_row(rows: &KindRows, path: &Path) -> bool
    ensures { result ≡ has path.now (entries_in rows.now.rows) }
{
    rows.rows.rows().get(path).is_some()
}

/// Tells whether the root, which has a row, is the first of some files that changed, and others follow; and no file
/// is gone.
fn begin_with_root<W>(rows: &KindRows, changed: &[(&Path, &Label)], gone: &[(&Path, W)]) -> bool
    ensures { result ≡ true → BeginWithRoot (entries_in rows.now.rows) (map with_label changed.now) (map seen gone.now) }
{
    if changed.len() < 2 || !gone.is_empty() {
        return false;
    }
    let (path, _) = &changed[0];
    if !path.borrowed().is_root() {
        return false;
    }
    has_row(rows, path)
}

/// Returns the sum of two counts, or `most` if that is less.
fn sum_up_to(most: usize, one: usize, other: usize) -> usize
    ensures most { result ≤ most }
    ensures least { (n : ℕ) → n ≤ one + other → n ≤ most → n ≤ result }
{
    match one.checked_add(other) {
        Some(sum) if sum < most => sum,
        _ => most,
    }
}

/// Rows after some files got labels; hints at the numbers of these too; and the numbers whose rows may be others.
#[derive(Drop)]
struct LabelsPut {
    map: KindMap<LabelRow>,
    hints: Hints,
    numbers: Vec<usize>,
}

/// Puts the rows of files that got labels, each distinct label judged at most once (more often if hashes collide; the
/// clause bounds that by the files).
fn put_labels<'a, J: Judge>(
    alloc: Global,
    judge: &mut J,
    users: &Subjects,
    known: &HintedRows<'_, '_>,
    changed: &[(&'a Path, &'a Label)],
) -> Result<LabelsPut, AllocError>
    requires room { J.asked_of judge.old + length changed.now * length users.now < 2 ^ 64 }
    requires known { AreRowsOf J.verdict_of users.now (entries_in known.now.rows.now) }
    requires changed { IsInOrder (map with_label changed.now) }
    ensures rows { IfOk result (λ new. entries_in new.map ≡ put_all (rowed_labels J.verdict_of users.now (map with_label changed.now)) (entries_in known.now.rows.now)) }
    ensures puts { IfOk result (λ new. PutsLabels known.now.rows.now (map with_label changed.now) new.map) }
    ensures same { IfOk result (λ new. SameBut new.numbers.items known.now.rows.now.0 new.map.0) }
    ensures at_most { J.asked_of judge.new ≤ J.asked_of judge.old + length changed.now * length users.now }
{
    let new = places_of(alloc, changed)?;
    let LabelPlaces {
        labels,
        places,
        by_hash,
    } = new;
    let nodes = given_rows(alloc, judge, users, known, &labels)?;
    let put = known.rows.put_placed(alloc, &places, &nodes)?;
    let PlacedMap {
        map,
        numbers,
        found,
    } = put;
    let hints = known.hints.with(alloc, &by_hash, &numbers)?;
    let mut numbers = numbers;
    push_found(&mut numbers, &found)?;
    Ok(LabelsPut {
        map,
        hints,
        numbers,
    })
}

impl KindRows {
    /// Returns the rows after some files got other labels and others are gone, and of how many files the answers
    /// along their paths may be new or other ones: at least those that are. The judge gives at most one verdict per user
    /// for each changed file, and mostly one for each distinct label that hints do not find.
    fn with_labels<'a, J: Judge, W>(
        &self,
        alloc: Global,
        judge: &mut J,
        users: &Subjects,
        changed: &[(&'a Path, &'a Label)],
        gone: &[(&Path, W)],
    ) -> Result<(KindRows, usize), AllocError>
        requires room { J.asked_of judge.old + length changed.now * length users.now < 2 ^ 64 }
        requires known { AreRowsOf J.verdict_of users.now (entries_in self.now.rows) }
        requires changed { IsInOrder (map with_label changed.now) }
        requires gone { IsInOrder (map seen gone.now) }
        ensures rows { IfOk result (λ new. entries_in new.0.rows
            ≡ merged (rowed_labels J.verdict_of users.now (map with_label changed.now)) (map seen gone.now) (entries_in self.now.rows)) }
        ensures least { IfOk result (λ new. AreCounted self.now.rows new.0.rows new.1) }
        ensures most { IfOk result (λ new. new.1 ≤ length (inside (paths_of (map with_label changed.now) ++ paths_of (map seen gone.now)) (entries_in new.0.rows))) }
        ensures at_most { J.asked_of judge.new ≤ J.asked_of judge.old + length changed.now * length users.now }
    {
        let before = self.rows.rows();
        let (left, gone_found) = before.map().without_found(alloc, gone)?;
        let _left = left.kinds();
        let known = HintedRows {
            rows: &left,
            hints: &self.hints,
        };
        let put = put_labels(alloc, judge, users, &known, changed)?;
        let LabelsPut {
            map,
            hints,
            numbers,
        } = put;
        let mut numbers = numbers;
        push_found(&mut numbers, &gone_found)?;
        let labelled = before.after(alloc, map, numbers)?;
        let _kinds = labelled.map().kinds();
        let (rows, refreshed) = self.rows.with_files(alloc, labelled, changed, gone)?;
        Ok((KindRows { rows, hints }, refreshed))
    }

    /// Returns the rows of `with_labels`. If the root changed beside other files, it gets its label after these: so
    /// files below it that did not change may keep their path classes. The two counts may have a file twice, so
    /// their sum is limited to the number of all files.
    pub fn with_files<'a, J: Judge, W>(
        &self,
        alloc: Global,
        judge: &mut J,
        users: &Subjects,
        changed: &[(&'a Path, &'a Label)],
        gone: &[(&Path, W)],
    ) -> Result<(KindRows, usize), AllocError>
        requires room { J.asked_of judge.old + length changed.now * length users.now < 2 ^ 64 }
        requires known { AreRowsOf J.verdict_of users.now (entries_in self.now.rows) }
        requires changed { IsInOrder (map with_label changed.now) }
        requires gone { IsInOrder (map seen gone.now) }
        requires few { length (merged (rowed_labels J.verdict_of users.now (map with_label changed.now)) (map seen gone.now) (entries_in self.now.rows)) < 2 ^ 64 }
        ensures rows { IfOk result (λ new. entries_in new.0.rows
            ≡ merged (rowed_labels J.verdict_of users.now (map with_label changed.now)) (map seen gone.now) (entries_in self.now.rows)) }
        ensures least { IfOk result (λ new. AreCounted self.now.rows new.0.rows new.1) }
        ensures most { IfOk result (λ new. new.1 ≤ length (inside (paths_of (map with_label changed.now) ++ paths_of (map seen gone.now)) (entries_in new.0.rows))) }
        ensures at_most { J.asked_of judge.new ≤ J.asked_of judge.old + length changed.now * length users.now }
    {
        if !begin_with_root(self, changed, gone) {
            return self.with_labels(alloc, judge, users, changed, gone);
        }
        self.rows.rows().order_law();
        let (root, others) = changed.split_at(1);
        let (between, count) = self.with_labels(alloc, judge, users, others, gone)?;
        let _between = between.rows.rows().kinds();
        let (new, more) = between.with_labels(alloc, judge, users, root, gone)?;
        let _new = new.rows.rows().kinds();
        let files = new.rows.rows().len();
        Ok((new, sum_up_to(files, count, more)))
    }
}
