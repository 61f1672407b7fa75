ghost use Rattle.std.specs.Prelude.{◌≡◌, ℕ, List, [], ◌∷◌, ◌++◌, length, not, if◌then◌else◌, IfOk, OnErr};
ghost use Rattle.document_forms.specs.Names.{is_among};
ghost use Rattle.rule_reader.specs.Names.{number_among};
ghost use Rattle.wpds_base.specs.Lists.{IsOnce};

use key_rows::KeyedList;
use std::alloc::Global;
use std::marker::Model;
use wpds_base::{OutOfMemory, Sequence};
use wpds_port::Text;

/// The names of one class, in the order in which they are declared. A name's number is its place,
/// from 0.
///
/// They are looked up by a hash whose chains are made anew where one grows long. Names that are chosen to collide are
/// tried by `tools/hostile-documents`; no clause says how long a look-up takes.
#[derive(Drop)]
pub struct NameTable<'t> {
    // Each is found by itself.
    names: KeyedList<&'t [u8], &'t [u8]>,
}

impl<'t> Model for NameTable<'t> {
    ghost use Rattle.std.specs.Prelude.{List, ℕ};
    ghost use Rattle.wpds_base.specs.Lists.{IsOnce};
    ghost use Rattle.rule_reader.specs.private.NameTables.{bytes_of};

    ghost Value = { List (List ℕ) };

    ghost view = { λ t. bytes_of t.names.members };

    ghost invariant = { λ t. IsOnce (bytes_of t.names.members) };
}

impl<'t> NameTable<'t> {
    /// No names.
    pub fn new(alloc: Global) -> NameTable<'t>
        ensures { result ≡ [] }
    {
        NameTable {
            names: KeyedList::new(alloc),
        }
    }

    /// How many names there are.
    pub fn len(&self) -> usize
        ensures { result ≡ length self.now }
    {
        self.names.len()
    }

    /// Each name stands once.
    pub fn stands_once(&self)
        ensures { IsOnce self.now }
    {
        let _ = &self.names;
    }

    /// The number of a name, if it is there.
    pub fn number_of(&self, name: &[u8]) -> Option<u32>
        ensures { result ≡ number_among self.now name.now }
    {
        self.names.find(name)
    }

    /// Adds a name, unless it is there, and returns whether it was added.
    ///
    /// A table of 2^32 - 1 names answers out of memory where one more is to be added. After that answer the table
    /// is as it was.
    pub fn add(&mut self, name: &'t [u8]) -> Result<bool, OutOfMemory>
        ensures added { IfOk result (λ added. added ≡ not (is_among self.old name.now)) }
        ensures names { IfOk result (λ added.
            self.new ≡ (if added then self.old ++ name.now ∷ [] else self.old)) }
        ensures err { OnErr result (self.new ≡ self.old) }
    {
        let count = self.names.len();
        self.names.make(name)?;
        Ok(self.names.len() > count)
    }

    /// The same names in a table of their own. The bytes are borrowed again.
    pub fn copy(&self, alloc: Global) -> Result<NameTable<'t>, OutOfMemory>
        ensures { IfOk result (λ t. t ≡ self.now) }
    {
        let mut copy = NameTable::new(alloc);
        for k in 0..self.names.len() {
            copy.add(*self.names.get(k))?;
        }
        Ok(copy)
    }

    /// The names as texts of their own, each copied once. After an answer out of memory the table is gone.
    pub fn into_names(self, alloc: Global) -> Result<Sequence<Text>, OutOfMemory>
        ensures { IfOk result (λ names. names ≡ self.entry) }
    {
        let mut names = Vec::with_capacity(alloc, self.names.len())?;
        for k in 0..self.names.len() {
            names.push(Text::of(alloc, *self.names.get(k))?)?;
        }
        Ok(Sequence::from_vec(names))
    }
}
