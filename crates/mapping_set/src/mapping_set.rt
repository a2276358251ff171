//! The set of mappings.

ghost use Rattle.std.specs.Prelude.{◌≡◌, ℕ, ◌↔◌, ◌+◌, ◌-◌, ◌<◌, ◌≤◌, false, None, Some, IsSome, IfSome, IsTrue, OnOk};
ghost use Rattle.std.specs.Option.{MatchOption};
ghost use Rattle.balanced_tree.specs.Gaps.{IsFirstGapOrNone};
ghost use Rattle.balanced_tree.specs.Pairs.{with_pair};
ghost use Rattle.pair_map.specs.Maps.{values_of, extents_of, IsOpen};
ghost use Rattle.vm_base.specs.declared.limits.TheConstants.{NAMES, PAGES_END};
ghost use Rattle.vm_model.specs.Space.Table.{with_pages, with_perm, has_entry};
ghost use Rattle.mapping_set.specs.declared.piece.Piece.{Piece};
ghost use Rattle.mapping_set.specs.Pieces.{list_number, piece_from, piece_until, IsHeld, HasNoHeld, IsOfRegion, IsBorder};
ghost use Rattle.mapping_set.specs.Tables.{places_of, with_place, IsClear};
ghost use Rattle.mapping_set.specs.Tables.{table_of, pieces_of, mapping_spare, with_piece, without_piece, without_taken};
ghost use Rattle.mapping_set.specs.Tables.{IsBare, IsBareFrom, IsFull, IsNextPiece, IsPieceOf, IsFirstPiece, IsPieceIn, entries_in};
ghost use Rattle.mapping_set.specs.Tables.{IsOneOf, IsRestOf, IsPieceWithin};

use crate::piece::Piece;
use crate::taken::{clear_places, first_piece, free_place, hold_place};
use pair_map::{ExtentMap, PairMap};
use std::alloc::Global;
use std::marker::Model;
use vm_base::{HostMemory, NAMES, PAGES_END, PageNo, Perm, RegionName};
use vm_model::Entry;

/// The entries of all address spaces: what each page shows. Contracts see the entry of each root region and page
/// (`table_of`), the pieces that a call takes or answers (`pieces_of`), and `mapping_spare`, how many more pieces fit with
/// no memory from the host. No call but `reserve` asks the host for memory.
#[derive(Drop)]
pub struct MappingSet {
    /// Each piece by its root region and its last page.
    pieces: PairMap<Piece>,
    /// The pages that are taken in each region, in the region's list: those of each piece, with no name, and the places
    /// that the callers noted, each with the name of a region.
    taken: ExtentMap<Option<RegionName>>,
}

impl Model for MappingSet {
    ghost use Rattle.mapping_set.specs.Tables.{Mappings};

    ghost Value = { Mappings };

    ghost use Rattle.mapping_set.specs.inside.SetFields.{mappings_of, AreMappings};

    ghost view = { mappings_of };

    ghost invariant = { AreMappings };
}

/// Returns the number of the list of a region's pieces.
fn list_number(region: RegionName, root: RegionName) -> u64
    ensures number { result ≡ list_number region.0 root.0 }
    ensures below { (region.0 < NAMES) × (root.0 < NAMES) }
{
    u64::from(region.0) * NAMES + u64::from(root.0)
}

impl MappingSet {
    /// Makes a set with no entry and no room.
    pub fn new(alloc: Global) -> MappingSet
        ensures table { table_of result ≡ λ root p. None }
        ensures spare { mapping_spare result ≡ 0 }
        ensures places { places_of result ≡ λ l p. None }
    {
        MappingSet {
            pieces: PairMap::new(alloc),
            taken: ExtentMap::new(alloc),
        }
    }

    /// Makes room for `n` pieces or places more. `HostMemory` if the host has too little memory. The entries stay as
    /// they are on both answers, and no room is lost.
    pub fn reserve(&mut self, n: u64) -> Result<(), HostMemory>
        ensures room { OnOk result (n ≤ mapping_spare self.new) }
        ensures table { table_of self.new ≡ table_of self.old }
        ensures spare { mapping_spare self.old ≤ mapping_spare self.new }
        ensures places { places_of self.new ≡ places_of self.old }
    {
        let Ok(()) = self.pieces.reserve(n as usize) else {
            return Err(HostMemory);
        };
        let Ok(()) = self.taken.reserve(n as usize) else {
            return Err(HostMemory);
        };
        Ok(())
    }

    /// Puts the entries of a piece into an address space, as one piece of the set. None of its pages has an entry
    /// before. The piece has at least one page. It ends at or below page `PAGES_END`, and so do the pages of the VMO
    /// that it shows. If a place of its region was noted on one of its pages, the note is taken back.
    pub fn place(&mut self, root: RegionName, piece: Piece)
        requires some { 1 ≤ piece.count }
        requires end { piece.first + piece.count ≤ PAGES_END }
        requires pages { piece.entry.page + piece.count ≤ PAGES_END }
        requires bare { IsBare (table_of self.old root.0) piece.first (piece.first + piece.count) }
        requires room { 1 ≤ mapping_spare self.old }
        ensures table { table_of self.new ≡ with_piece (table_of self.old) root.0 piece }
        ensures whole { pieces_of self.new ≡
            with_pair (pieces_of self.old) root.0 (piece.first + piece.count - 1) (Some piece) }
        ensures spare { mapping_spare self.old ≤ mapping_spare self.new + 1 }
        ensures places { IsOpen (places_of self.old (list_number piece.entry.region.0 root.0)) piece.first piece.count
            → places_of self.new ≡ places_of self.old }
    {
        self.clear_places(root, piece.entry.region, piece.first, piece.count);
        self.put(root, piece);
    }

    /// Returns what a page of an address space shows. `None` if and only if the page has no entry. Only pages below
    /// `PAGES_END` have one.
    pub fn at(&self, root: RegionName, page: PageNo) -> Option<Entry>
        ensures entry { result ≡ table_of self.now root.0 page }
        ensures below { (r p : ℕ) → IsSome (table_of self.now r p) → p < PAGES_END }
    {
        let (_last, piece) = self.held(root, page)?;
        if piece.first <= page {
            Some(piece.from(page).entry)
        } else {
            None
        }
    }

    /// Returns the entries from the first one at or past the page `from` to the end of its piece. `None` if and only if
    /// there is none. If each call begins where the last answer ended, there are as many calls as pieces from there on.
    pub fn next_piece(&self, root: RegionName, from: PageNo) -> Option<Piece>
        ensures piece { MatchOption result (IsBareFrom (table_of self.now root.0) from)
            (IsNextPiece (table_of self.now root.0) from) }
        ensures whole { IfSome result (IsRestOf (pieces_of self.now root.0) from) }
    {
        let (_last, piece) = self.held(root, from)?;
        Some(piece.from(piece.first.max(from)))
    }

    /// Returns the lowest page from `from` on such that it and the next ones, `count` in all, have no entry that
    /// belongs to the region, and end at the limit or before. `None` if and only if there is none. It passes the pieces of
    /// the address space from `from` on, one by one. `first_clear` makes one search.
    pub fn first_gap(
        &self,
        root: RegionName,
        region: RegionName,
        from: PageNo,
        count: u64,
        limit: PageNo,
    ) -> Option<PageNo>
        requires some { 1 ≤ count }
        requires limit { limit ≤ PAGES_END }
        ensures { IsFirstGapOrNone (λ p. has_entry (table_of self.now) root.0 region.0 p (p + count) ≡ false)
            from count limit result }
    {
        let mut start = from;
        let mut at = from;
        'search: while count <= limit && start <= limit - count {
            let Some((last, piece)) = self.held(root, at) else {
                return Some(start);
            };
            if start + count <= piece.first {
                return Some(start);
            }
            if piece.entry.region.0 == region.0 {
                start = last + 1;
            }
            at = last + 1;
        }
        None
    }

    /// Notes that `count` pages from `first` on are those of a region `name` in `region`. From then on they are taken
    /// in `region`. None of them has an entry that belongs to `region`, and none is noted yet.
    pub fn hold_place(
        &mut self,
        root: RegionName,
        region: RegionName,
        first: PageNo,
        count: u64,
        name: RegionName,
    )
        requires some { 1 ≤ count }
        requires end { first + count ≤ PAGES_END }
        requires clear { IsClear (places_of self.old (list_number region.0 root.0)) (table_of self.old) root.0 region.0
            first count }
        requires room { 1 ≤ mapping_spare self.old }
        ensures places { places_of self.new ≡
            with_place (places_of self.old) (list_number region.0 root.0) first count name }
        ensures table { table_of self.new ≡ table_of self.old }
        ensures spare { mapping_spare self.old ≤ mapping_spare self.new + 1 }
    {
        hold_place(
            &mut self.taken,
            list_number(region, root),
            first,
            count,
            name,
        );
    }

    /// Takes back the note of a place in a region that begins at the page `first`, if there is one.
    pub fn free_place(&mut self, root: RegionName, region: RegionName, first: PageNo)
        ensures places { places_of self.new ≡ with_pair (places_of self.old) (list_number region.0 root.0) first None }
        ensures table { table_of self.new ≡ table_of self.old }
        ensures spare { mapping_spare self.old ≤ mapping_spare self.new }
    {
        free_place(&mut self.taken, list_number(region, root), first);
    }

    /// Returns the lowest page from `from` on such that it and the next ones, `count` in all, are clear and end at the
    /// limit or before. A page is clear if it has no entry that belongs to the region, and is in no place that was
    /// noted in the region. `None` if and only if there is no such page.
    pub fn first_clear(
        &self,
        root: RegionName,
        region: RegionName,
        from: PageNo,
        count: u64,
        limit: PageNo,
    ) -> Option<PageNo>
        requires some { 1 ≤ count }
        requires limit { limit ≤ PAGES_END }
        ensures { IsFirstGapOrNone (λ p. IsClear (places_of self.now (list_number region.0 root.0)) (table_of self.now)
            root.0 region.0 p count) from count limit result }
    {
        self.taken
            .first_gap(list_number(region, root), from, count, limit)
    }

    /// Returns whether none of `count` pages from `first` on has an entry that belongs to the region, or is in a place
    /// that was noted in the region.
    pub fn is_clear(&self, root: RegionName, region: RegionName, first: PageNo, count: u64) -> bool
        ensures { IsTrue result ↔
            IsClear (places_of self.now (list_number region.0 root.0)) (table_of self.now) root.0 region.0 first count }
    {
        self.taken.is_open(list_number(region, root), first, count)
    }

    /// Takes out the first entries of a range of `count` pages from `first` on: the first entry of the range, and all
    /// others of its piece that lie in the range. Answers them. `None` if and only if the range has no entry. What is
    /// left of the piece, before the range or behind it, stays. `first + count` may pass 2^64.
    pub fn carve(&mut self, root: RegionName, first: PageNo, count: u64) -> Option<Piece>
        requires room { 1 ≤ mapping_spare self.old }
        ensures piece { MatchOption result (IsBare (table_of self.old root.0) first (first + count))
            (IsFirstPiece (table_of self.old root.0) first (first + count)) }
        ensures whole { IfSome result (IsPieceWithin (pieces_of self.old root.0) first (first + count)) }
        ensures table { table_of self.new ≡ without_taken (table_of self.old) root.0 result }
        ensures spare { mapping_spare self.old ≤ mapping_spare self.new + 1 }
        ensures none { result ≡ None → mapping_spare self.old ≤ mapping_spare self.new }
        ensures rest { mapping_spare self.new < mapping_spare self.old → IsBare (table_of self.new root.0) first (first + count) }
        ensures places { places_of self.new ≡ places_of self.old }
    {
        if count == 0 {
            return None;
        }
        let end = first.saturating_add(count);
        let (last, piece) = self.held(root, first)?;
        if end <= piece.first {
            return None;
        }
        let rest = piece.from(piece.first.max(first));
        if last < end {
            self.take_rest(root, last, piece, rest.first);
            return Some(rest);
        }
        self.take_middle(root, last, piece, rest.first, end);
        Some(rest.until(end))
    }

    /// Takes out one piece of the entries that belong to a region, and answers it. `None` if and only if there is none.
    pub fn drop_region(&mut self, root: RegionName, region: RegionName) -> Option<Piece>
        ensures piece { MatchOption result (has_entry (table_of self.old) root.0 region.0 0 PAGES_END ≡ false)
            (IsPieceIn (table_of self.old root.0) region.0) }
        ensures whole { IfSome result (IsOneOf (pieces_of self.old root.0)) }
        ensures table { table_of self.new ≡ without_taken (table_of self.old) root.0 result }
        ensures fewer { IfSome result (λ piece.
            entries_in (table_of self.new) root.0 region.0 < entries_in (table_of self.old) root.0 region.0) }
        ensures spare { mapping_spare self.old ≤ mapping_spare self.new }
        ensures places { places_of self.new ≡ places_of self.old }
    {
        let last = self.last_of(root, region)?;
        Some(self.take(root, last))
    }

    /// Gives each entry of a range other permissions. Each page of the range, `count` from `first` on, has an entry.
    pub fn restrict(&mut self, root: RegionName, first: PageNo, count: u64, perm: Perm)
        requires full { IsFull (table_of self.old root.0) first (first + count) }
        requires room { 2 ≤ mapping_spare self.old }
        ensures table { table_of self.new ≡
            with_pages (table_of self.old) root.0 first (first + count) (with_perm perm (table_of self.old root.0)) }
        ensures spare { mapping_spare self.old ≤ mapping_spare self.new + 2 }
        ensures places { places_of self.new ≡ places_of self.old }
    {
        let end = first + count;
        self.cut(root, first);
        self.cut(root, end);
        self.restrict_pieces(root, first, end, perm);
    }

    /// Returns the first piece of an address space that ends at or behind the page `from`, with its last page. `None`
    /// if and only if no page from `from` on has an entry.
    fn held(&self, root: RegionName, from: PageNo) -> Option<(PageNo, Piece)>
        ensures { MatchOption result (HasNoHeld (values_of self.now.pieces) root.0 from)
            (λ pair. IsHeld (values_of self.now.pieces) root.0 from pair.0 pair.1) }
    {
        self.pieces.next(u64::from(root.0), from)
    }

    /// Takes back each note of a place in a region that has one of `count` pages from `first` on. None of these pages
    /// has an entry.
    fn clear_places(&mut self, root: RegionName, region: RegionName, first: PageNo, count: u64)
        requires some { 1 ≤ count }
        requires end { first + count ≤ PAGES_END }
        requires bare { IsBare (table_of self.old root.0) first (first + count) }
        ensures vacant { IsOpen (places_of self.new (list_number region.0 root.0)) first count }
        ensures same { IsOpen (places_of self.old (list_number region.0 root.0)) first count
            → places_of self.new ≡ places_of self.old }
        ensures table { table_of self.new ≡ table_of self.old }
        ensures pieces { values_of self.new.pieces ≡ values_of self.old.pieces }
        ensures spare { mapping_spare self.old ≤ mapping_spare self.new }
    {
        clear_places(&mut self.taken, list_number(region, root), first, count);
    }

    /// Puts a piece into an address space, as `place` does. No place of its region is noted on its pages.
    fn put(&mut self, root: RegionName, piece: Piece)
        requires some { 1 ≤ piece.count }
        requires end { piece.first + piece.count ≤ PAGES_END }
        requires pages { piece.entry.page + piece.count ≤ PAGES_END }
        requires bare { IsBare (table_of self.old root.0) piece.first (piece.first + piece.count) }
        requires room { 1 ≤ mapping_spare self.old }
        requires vacant { IsOpen (places_of self.old (list_number piece.entry.region.0 root.0)) piece.first piece.count }
        ensures table { table_of self.new ≡ with_piece (table_of self.old) root.0 piece }
        ensures pieces { values_of self.new.pieces ≡
            with_pair (values_of self.old.pieces) root.0 (piece.first + piece.count - 1) (Some piece) }
        ensures spare { mapping_spare self.old ≤ mapping_spare self.new + 1 }
        ensures places { places_of self.new ≡ places_of self.old }
    {
        let _apart = self.taken.len();
        let list = list_number(piece.entry.region, root);
        self.pieces
            .insert(u64::from(root.0), piece.first + piece.count - 1, piece);
        self.taken.insert(list, piece.first, piece.count, None);
    }

    /// Takes out the piece of an address space whose last page is `last`, and answers it.
    fn take(&mut self, root: RegionName, last: PageNo) -> Piece
        requires { IsSome (values_of self.old.pieces root.0 last) }
        ensures piece { values_of self.old.pieces root.0 last ≡ Some result }
        ensures last { result.first + result.count ≡ last + 1 }
        ensures shown { IsPieceOf (table_of self.old root.0) result }
        ensures table { (x : Piece) → values_of self.old.pieces root.0 last ≡ Some x
            → table_of self.new ≡ without_piece (table_of self.old) root.0 x }
        ensures spare { mapping_spare self.new ≡ mapping_spare self.old + 1 }
        ensures places { places_of self.new ≡ places_of self.old }
    {
        let piece = self.pieces.remove(u64::from(root.0), last);
        let list = list_number(piece.entry.region, root);
        self.taken.remove(list, piece.first);
        piece
    }

    /// Returns the last page of the first piece that belongs to a region. `None` if and only if the region has no
    /// entry.
    fn last_of(&self, root: RegionName, region: RegionName) -> Option<PageNo>
        ensures { MatchOption result (has_entry (table_of self.now) root.0 region.0 0 PAGES_END ≡ false)
            (IsOfRegion (values_of self.now.pieces) root.0 region.0) }
    {
        let (first, count) = first_piece(&self.taken, list_number(region, root))?;
        Some(first + count - 1)
    }

    /// Cuts the piece that has both the page `page` and the one before it in two, if there is one. The entries stay.
    /// The next piece from `page` on then begins at `page` or later, and is what is left of one that stood.
    fn cut(&mut self, root: RegionName, page: PageNo)
        requires room { 1 ≤ mapping_spare self.old }
        ensures table { table_of self.new ≡ table_of self.old }
        ensures border { IsBorder (values_of self.new.pieces root.0) page }
        ensures kept { (q : ℕ) → IsBorder (values_of self.old.pieces root.0) q
            → IsBorder (values_of self.new.pieces root.0) q }
        ensures rest { (last : ℕ) (x : Piece) → IsHeld (values_of self.new.pieces) root.0 page last x
            → IsRestOf (values_of self.old.pieces root.0) page x }
        ensures spare { mapping_spare self.old ≤ mapping_spare self.new + 1 }
        ensures whole { table_of self.old root.0 page ≡ None → mapping_spare self.old ≤ mapping_spare self.new }
        ensures places { places_of self.new ≡ places_of self.old }
    {
        let Some((last, piece)) = self.held(root, page) else {
            return;
        };
        if page <= piece.first {
            return;
        }
        self.split(root, last, piece, page, page);
    }

    /// Takes the pages from `from` on out of a piece that has `from`: it is `piece`, and has its last page at `last`.
    fn take_rest(&mut self, root: RegionName, last: PageNo, piece: Piece, from: PageNo)
        requires piece { values_of self.old.pieces root.0 last ≡ Some piece }
        requires page { (piece.first ≤ from) × (from ≤ last) }
        ensures table { table_of self.new ≡ with_pages (table_of self.old) root.0 from (last + 1) (λ p. None) }
        ensures spare { mapping_spare self.old ≤ mapping_spare self.new }
        ensures places { places_of self.new ≡ places_of self.old }
    {
        if piece.first < from {
            self.keep_head(root, last, piece, from);
        } else {
            self.take(root, last);
        }
    }

    /// Takes the pages from `from` to below `end` out of a piece that has `from` and `end`: it is `piece`, and has its last
    /// page at `last`.
    fn take_middle(
        &mut self,
        root: RegionName,
        last: PageNo,
        piece: Piece,
        from: PageNo,
        end: PageNo,
    )
        requires piece { values_of self.old.pieces root.0 last ≡ Some piece }
        requires order { (piece.first ≤ from) × (from < end) × (end ≤ last) }
        requires room { 1 ≤ mapping_spare self.old }
        ensures table { table_of self.new ≡ with_pages (table_of self.old) root.0 from end (λ p. None) }
        ensures spare { mapping_spare self.old ≤ mapping_spare self.new + 1 }
        ensures places { places_of self.new ≡ places_of self.old }
    {
        if piece.first < from {
            self.split(root, last, piece, from, end);
        } else {
            self.keep_tail(root, last, piece, end);
        }
    }

    /// Takes the pages from `page` to below `end` out of a piece that has pages before them and behind them: it is `piece`,
    /// and has its last page at `last`. In each table it changes one row, and adds one.
    fn split(&mut self, root: RegionName, last: PageNo, piece: Piece, page: PageNo, end: PageNo)
        requires piece { values_of self.old.pieces root.0 last ≡ Some piece }
        requires order { (piece.first < page) × (page ≤ end) × (end ≤ last) }
        requires room { 1 ≤ mapping_spare self.old }
        ensures table { table_of self.new ≡ with_pages (table_of self.old) root.0 page end (λ p. None) }
        ensures pieces { values_of self.new.pieces ≡ with_pair
            (with_pair (values_of self.old.pieces) root.0 last (Some (piece_from piece end)))
            root.0 (page - 1) (Some (piece_until piece page)) }
        ensures spare { mapping_spare self.old ≤ mapping_spare self.new + 1 }
        ensures places { places_of self.new ≡ places_of self.old }
    {
        let _apart = self.taken.len();
        let list = list_number(piece.entry.region, root);
        self.pieces.replace(root.0 as u64, last, piece.from(end));
        self.pieces
            .insert(root.0 as u64, page - 1, piece.until(page));
        self.taken
            .split(list, piece.first, last + 1, page, end, None);
    }

    /// Leaves of a piece the pages before the page `page`, which is one of its pages and not the first: it is `piece`, and
    /// has its last page at `last`.
    fn keep_head(&mut self, root: RegionName, last: PageNo, piece: Piece, page: PageNo)
        requires piece { values_of self.old.pieces root.0 last ≡ Some piece }
        requires page { (piece.first < page) × (page ≤ last) }
        ensures table { table_of self.new ≡ with_pages (table_of self.old) root.0 page (last + 1) (λ p. None) }
        ensures spare { mapping_spare self.old ≤ mapping_spare self.new }
        ensures places { places_of self.new ≡ places_of self.old }
    {
        let _apart = self.taken.len();
        let list = list_number(piece.entry.region, root);
        let count = page - piece.first;
        self.pieces
            .replace_at(root.0 as u64, last, page - 1, piece.until(page));
        self.taken.shorten(list, piece.first, count, None);
    }

    /// Leaves of a piece the pages from `page` on, which is one of its pages and not the first: it is `piece`, and has its last
    /// page at `last`.
    fn keep_tail(&mut self, root: RegionName, last: PageNo, piece: Piece, page: PageNo)
        requires piece { values_of self.old.pieces root.0 last ≡ Some piece }
        requires page { (piece.first < page) × (page ≤ last) }
        ensures table { table_of self.new ≡ with_pages (table_of self.old) root.0 piece.first page (λ p. None) }
        ensures spare { mapping_spare self.old ≤ mapping_spare self.new }
        ensures places { places_of self.new ≡ places_of self.old }
    {
        let _apart = self.taken.len();
        let list = list_number(piece.entry.region, root);
        self.pieces.replace(root.0 as u64, last, piece.from(page));
        self.taken.advance(list, piece.first, last + 1, page, None);
    }

    /// Gives each entry of whole pieces other permissions. All of their pages, from `first` to below `end`, have an
    /// entry.
    fn restrict_pieces(&mut self, root: RegionName, first: PageNo, end: PageNo, perm: Perm)
        requires full { IsFull (table_of self.old root.0) first end }
        requires order { first ≤ end }
        requires begins { IsBorder (values_of self.old.pieces root.0) first }
        requires ends { IsBorder (values_of self.old.pieces root.0) end }
        ensures table { table_of self.new ≡
            with_pages (table_of self.old) root.0 first end (with_perm perm (table_of self.old root.0)) }
        ensures spare { mapping_spare self.old ≤ mapping_spare self.new }
        ensures places { places_of self.new ≡ places_of self.old }
    {
        let mut at = first;
        while at < end {
            at = self.restrict_piece(root, at, end, perm);
        }
    }

    /// Gives each entry of the piece that begins at the page `at` other permissions. Answers the page behind the piece,
    /// which is at most `end`.
    fn restrict_piece(&mut self, root: RegionName, at: PageNo, end: PageNo, perm: Perm) -> PageNo
        requires some { IsSome (table_of self.old root.0 at) }
        requires order { at < end }
        requires begins { IsBorder (values_of self.old.pieces root.0) at }
        requires ends { IsBorder (values_of self.old.pieces root.0) end }
        ensures order { (at < result) × (result ≤ end) }
        ensures table { table_of self.new ≡
            with_pages (table_of self.old) root.0 at result (with_perm perm (table_of self.old root.0)) }
        ensures begins { IsBorder (values_of self.new.pieces root.0) result }
        ensures ends { IsBorder (values_of self.new.pieces root.0) end }
        ensures spare { mapping_spare self.old ≤ mapping_spare self.new }
        ensures places { places_of self.new ≡ places_of self.old }
    {
        let Some((last, piece)) = self.held(root, at) else {
            unreachable!()
        };
        self.pieces
            .replace(root.0 as u64, last, piece.with_perm(perm));
        last + 1
    }
}
