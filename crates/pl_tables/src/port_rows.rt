ghost use Rattle.std.specs.Prelude.{◌≡◌, ◌≢◌, ◌↔◌, [], IfErr, IfOk, IsTrue, OnErr, OnOk, length, slice_get};
ghost use Rattle.std.specs.Option.{option_copied};
ghost use Rattle.pl_lists.specs.Ports.{ports_of};
ghost use Rattle.pl_tables.specs.Rows.{ports_at, ArePortRows, RowIsAt, IsGapFor, PutsAt};

use pl_lists::{Memory, PortSet};
use std::alloc::Global;
use std::marker::Model;

/// The ports of a key.
#[derive(Clone, Copy, Debug, PartialEq, Eq)]
pub struct PortRow {
    pub key: u32,
    pub ports: PortSet,
}

/// The ports of each key that has any, by rising key. Contracts see the list of the rows.
#[derive(Debug, Drop)]
pub struct PortRows {
    rows: Vec<PortRow>,
}

impl Model for PortRows {
    ghost use Rattle.std.specs.Prelude.{List};
    ghost use Rattle.pl_tables.specs.declared.port_rows.PortRow.{PortRow};
    ghost use Rattle.pl_tables.specs.Rows.{ArePortRows};

    ghost Value = { List PortRow };

    ghost view = { λ rows. rows.rows.items };

    ghost invariant = { λ rows. ArePortRows rows.rows.items };
}

impl PortRows {
    pub fn new(alloc: Global) -> PortRows
        ensures { result ≡ [] }
    {
        PortRows {
            rows: Vec::new(alloc),
        }
    }

    pub fn len(&self) -> usize
        ensures { result ≡ length self.now }
    {
        self.rows.len()
    }

    pub fn is_empty(&self) -> bool
        ensures { IsTrue result ↔ (self.now ≡ []) }
    {
        self.rows.is_empty()
    }

    /// The row at an index, counted from 0; none past the last.
    pub fn get(&self, n: usize) -> Option<&PortRow>
        ensures { option_copied result ≡ slice_get self.now n }
    {
        self.rows.get(n)
    }

    /// All rows, by rising key.
    pub fn as_slice(&self) -> &[PortRow]
        ensures rows { result.now ≡ self.now }
        ensures rising { ArePortRows self.now }
    {
        self.rows.as_slice()
    }

    /// The ports of a key, found by halving.
    pub fn ports(&self, key: u32) -> PortSet
        ensures { ports_of result ≡ ports_at self.now key }
    {
        match self.search(key) {
            Ok(at) => self.rows[at].ports,
            Err(_) => PortSet::empty(),
        }
    }

    /// A key has these ports from now on. Where it has none, it has no row.
    pub fn put(&mut self, key: u32, ports: PortSet) -> Result<(), Memory>
        ensures ok { OnOk result (PutsAt self.old self.new key (ports_of ports)) }
        ensures err { OnErr result (self.new ≡ self.old) }
    {
        if ports.len() == 0 {
            self.take_out(key);
            return Ok(());
        }
        self.put_in(PortRow { key, ports })
    }

    // A key has no row any more.
    fn take_out(&mut self, key: u32)
        ensures { PutsAt self.old self.new key [] }
    {
        if let Ok(at) = self.search(key) {
            let _row = self.rows.remove(at);
        }
    }

    // A key has this row from now on.
    fn put_in(&mut self, row: PortRow) -> Result<(), Memory>
        requires { ports_of row.ports ≢ [] }
        ensures ok { OnOk result (PutsAt self.old self.new row.key (ports_of row.ports)) }
        ensures err { OnErr result (self.new ≡ self.old) }
    {
        match self.search(row.key) {
            Ok(at) => {
                self.rows[at] = row;
                Ok(())
            }
            Err(at) => Ok(self.rows.insert(at, row)?),
        }
    }

    // Where the key's row is, or where it would go.
    fn search(&self, key: u32) -> Result<usize, usize>
        ensures found { IfOk result (RowIsAt self.now key) }
        ensures absent { IfErr result (IsGapFor self.now key) }
    {
        self.rows.binary_search_by_key(&key, |&row| row.key)
    }
}
