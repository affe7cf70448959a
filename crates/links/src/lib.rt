//! Rows of cells in a lent slice. Cells are 0 to n - 1, each in at most one row. A place is a cell or the header n + r
//! of a row r, so that the front of a row is no special case; n is also the end mark. Every function is defined on any
//! shape and any words.

#![tactic(auto)]

ghost use Rattle.std.specs.Prelude.{◌≡◌, ◌+◌, ◌^◌, ◌<◌};
ghost use Rattle.links.specs.Area.{place_at, tail_at, header_of, after_in, tail_in, following_in, nth_in, inserted, removed, emptied, chained, filled};
ghost use Rattle.links.specs.Rows.{RowsLaws};
ghost use Rattle.links.specs.Walk.{cells_on, cells_in, cells_left};

// Numbers of cells and not a list on the heap: the engine has no memory but what it is lent.
mod cells;
mod shape;
mod words;

pub use cells::Cells;
pub use shape::Shape;
pub use words::{Word, get, put};

impl Shape {
    /// The place before the first cell of `row`.
    pub fn header(self, row: u32) -> u32
        ensures { result ≡ header_of self row }
    {
        self.cells.saturating_add(row)
    }

    #[tactic(auto, unfolding(crate::specs::Area::place_at))]
    fn place_at(self, place: u32) -> usize
        ensures { result ≡ place_at self place }
    {
        if place < self.cells {
            self.cells_at as usize + self.cell_step as usize * place as usize
        } else {
            self.heads_at as usize + self.head_step as usize * (place - self.cells) as usize
        }
    }

    // Where the two words of a row lie, one behind the other: the link of its header, and its last place.
    #[tactic(auto, unfolding(crate::specs::Area::place_at, crate::specs::Area::tail_at))]
    fn row_at(self, row: u32) -> (usize, usize)
        ensures link { self.cells + row < 2 ^ 32 → result.0 ≡ place_at self (header_of self row) }
        ensures last { result.1 ≡ tail_at self row }
        ensures beside { result.1 ≡ result.0 + 1 }
    {
        let link = self.heads_at as usize + self.head_step as usize * row as usize;
        (link, link + 1)
    }

    fn tail_at(self, row: u32) -> usize
        ensures { result ≡ tail_at self row }
    {
        self.row_at(row).1
    }

    fn after(self, words: &[u32], place: u32) -> u32
        ensures { result ≡ after_in self words.now place }
    {
        get(words, self.place_at(place))
    }

    /// The last place of `row`: its header, where the row is empty.
    pub fn tail(self, words: &[u32], row: u32) -> u32
        ensures { result ≡ tail_in self words.now row }
    {
        get(words, self.tail_at(row))
    }

    /// The cell after `place`, if any.
    pub fn following(self, words: &[u32], place: u32) -> Option<u32>
        ensures { result ≡ following_in self words.now place }
    {
        let cell = self.after(words, place);
        (cell < self.cells).then_some(cell)
    }

    #[tactic(auto, unfolding(crate::specs::Walk::cells_left))]
    fn cells_after(self, words: &[u32], place: u32, left: usize) -> Cells<'_>
        ensures { cells_left result ≡ cells_on left self words.now (following_in self words.now place) }
    {
        Cells {
            shape: self,
            words,
            place,
            left,
        }
    }

    /// The cells of `row`, from the front on, at most as many as there are in all.
    pub fn cells_of(self, words: &[u32], row: u32) -> Cells<'_>
        ensures { cells_left result ≡ cells_in self words.now row }
    {
        self.cells_after(words, self.header(row), self.cells as usize)
    }

    /// The cell at place `index` of `row`, counted from the front, if the row has so many.
    pub fn nth(self, words: &[u32], row: u32, index: u32) -> Option<u32>
        ensures { result ≡ nth_in self words.now row index }
    {
        let index = index as usize;
        let mut cells = self.cells_after(words, self.header(row), index + 1);
        cells.nth(index)
    }

    /// Puts `cell` right after `place`, which is one of `row`.
    #[tactic(auto, unfolding(crate::specs::Area::inserted))]
    pub fn insert_after(self, words: &mut [u32], row: u32, place: u32, cell: u32)
        ensures { words.new ≡ inserted self row place cell words.old }
    {
        let after = self.after(words, place);
        let tail = self.tail(words, row);
        put(words, self.place_at(cell), after);
        put(words, self.place_at(place), cell);
        if tail == place {
            put(words, self.tail_at(row), cell);
        }
    }

    /// Takes `cell`, which stands right after `place`, out of `row`.
    #[tactic(auto, unfolding(crate::specs::Area::removed))]
    pub fn remove_after(self, words: &mut [u32], row: u32, place: u32, cell: u32)
        ensures { words.new ≡ removed self row place cell words.old }
    {
        let after = self.after(words, cell);
        let tail = self.tail(words, row);
        put(words, self.place_at(place), after);
        if tail == cell {
            put(words, self.tail_at(row), place);
        }
    }

    /// Takes `cell`, the first of the row `from`, out of it, and puts it in front of the row `to`.
    #[tactic(auto, unfolding(crate::specs::Area::removed, crate::specs::Area::inserted))]
    #[inline(always)]
    pub fn move_first(self, words: &mut [u32], from: u32, to: u32, cell: u32)
        ensures { words.new ≡ inserted self to (header_of self to) cell (removed self from (header_of self from) cell words.old) }
    {
        let len = words.len();
        let (front, to_front) = (self.header(from), self.header(to));
        let ((first, tail), (to_first, to_tail)) = (self.row_at(from), self.row_at(to));
        let link = self.place_at(cell);
        let most = u32::MAX - self.cells;
        if from > most || to > most || tail >= len || to_tail >= len || link >= len {
            self.remove_after(words, from, front, cell);
            self.insert_after(words, to, to_front, cell);
            return;
        }
        let last = words[tail];
        words[first] = words[link];
        if last == cell {
            words[tail] = front;
        }
        let to_last = words[to_tail];
        words[link] = words[to_first];
        words[to_first] = cell;
        if to_last == to_front {
            words[to_tail] = cell;
        }
    }

    /// Empties every row. The cells' links stay as they are: no cell is in a row then.
    pub fn empty_rows(self, words: &mut [u32])
        ensures { words.new ≡ emptied self.rows self 0 words.old }
    {
        for row in 0..self.rows {
            let header = self.header(row);
            put(words, self.place_at(header), self.cells);
            put(words, self.tail_at(row), header);
        }
    }

    fn chain_cells(self, words: &mut [u32])
        ensures { words.new ≡ chained self.cells self 0 words.old }
    {
        for cell in 0..self.cells {
            put(words, self.place_at(cell), cell + 1);
        }
    }

    /// Puts all cells, in order, into `row`, where every row is empty.
    #[tactic(auto, unfolding(crate::specs::Area::filled))]
    pub fn fill_row(self, words: &mut [u32], row: u32)
        ensures { words.new ≡ filled self row words.old }
    {
        if self.cells != 0 {
            self.chain_cells(words);
            put(words, self.place_at(self.header(row)), 0);
            put(words, self.tail_at(row), self.cells - 1);
        }
    }
}

/// The laws of rows: what each operation does to the cells of every row, in order, and to all other words.
#[tactic(auto, using(crate::proofs::Laws::rows_laws))]
pub fn rows_stand()
    ensures { RowsLaws }
{}
