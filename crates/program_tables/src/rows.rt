ghost use Rattle.std.specs.Prelude.{◌≡◌, [], List, ℕ, bytes_eq, if◌then◌else◌, Some, unwrap_or, OnOk};
ghost use Rattle.program_tables.specs.Tables.{at_name};

use key_rows::{Keyed, KeyedList};
use std::alloc::Global;
use wpds_base::OutOfMemory;

/// A row with its name.
#[derive(Drop)]
pub(crate) struct NamedRow<'t, R: Copy + Drop> {
    pub(crate) name: &'t [u8],
    pub(crate) row: R,
}

impl<'t, R: Copy + Drop> Keyed<&'t [u8]> for NamedRow<'t, R> {
    ghost key_of = { λ r. r.name };

    fn key(&self) -> &'t [u8] {
        self.name
    }
}

/// Rows that are looked up by their names. Of a name that is added twice the first row counts.
///
/// They are found by a hash whose chains are made anew where one grows long. Names that are chosen to
/// collide are tried by `tools/hostile-documents`; no clause says how long a look-up takes.
#[derive(Drop)]
pub(crate) struct NamedRows<'t, R: Copy + Drop> {
    pub(crate) rows: KeyedList<&'t [u8], NamedRow<'t, R>>,
}

impl<'t, R: Copy + Drop> NamedRows<'t, R> {
    /// No rows.
    pub(crate) fn new(alloc: Global) -> NamedRows<'t, R>
        ensures { (x : List ℕ) → at_name result x ≡ None }
    {
        NamedRows {
            rows: KeyedList::new(alloc),
        }
    }

    /// The row of a name.
    pub(crate) fn get(&self, name: &[u8]) -> Option<R>
        ensures { result ≡ at_name self.now name.now }
    {
        match self.rows.find(name) {
            Some(k) => Some(self.rows.get(k as usize).row),
            None => None,
        }
    }

    /// Adds a row, unless one has its name.
    pub(crate) fn add(&mut self, name: &'t [u8], row: R) -> Result<(), OutOfMemory>
        ensures { (x : List ℕ) → OnOk result (at_name self.new x ≡ (if bytes_eq name.now x
            then Some (unwrap_or (at_name self.old name.now) row) else at_name self.old x)) }
    {
        self.rows.make(NamedRow { name, row })
    }
}
