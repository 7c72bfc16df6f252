//! Lists of rows.
ghost use Rattle.std.specs.Prelude.{◌≡◌, ◌<◌, [], IfErr, IfOk, length};

use crate::held::Held;
use crate::listed::Listed;
use sq_base::refusal::Refusal;
use sq_base::row::Row;
use std::alloc::Global;
use std::marker::Model;

/// Rows in an order, held once: a copy is one more owner of them.
#[derive(Drop)]
pub struct Rows {
    /// None where there are no rows, so that they take no memory.
    some: Option<Held<Listed<Row>>>,
}

impl Model for Rows {
    ghost use Rattle.std.specs.Prelude.{◌<◌, List, [], IfSome, length, unwrap_or};
    ghost use Rattle.sq_base.specs.declared.row.Row.{Row as RowValue};

    ghost Value = { List RowValue };

    ghost view = { λ rows. unwrap_or rows.some [] };

    ghost invariant = { λ rows. IfSome rows.some (λ them. 0 < length them) };
}

impl Rows {
    /// No row.
    pub fn none() -> Rows
        ensures { result ≡ [] }
    {
        Rows { some: None }
    }

    /// These rows. Refused as NoMemory, where there are any.
    pub fn of(alloc: Global, rows: Listed<Row>) -> Result<Rows, Refusal>
        ensures rows { IfOk result (λ them. them ≡ rows) }
        ensures err { IfErr result (λ e. (e ≡ Refusal.NoMemory) × (0 < length rows)) }
    {
        if rows.len() == 0 {
            return Ok(Rows::none());
        }
        Ok(Rows {
            some: Some(Held::new(alloc, rows)?),
        })
    }

    /// The same rows. Refused as NoMemory, where there are any.
    pub fn copy(&self) -> Result<Rows, Refusal>
        ensures copy { IfOk result (λ copy. copy ≡ self.now) }
        ensures err { IfErr result (λ e. (e ≡ Refusal.NoMemory) × (0 < length self.now)) }
    {
        let some = match &self.some {
            Some(rows) => Some(rows.copy()?),
            None => None,
        };
        Ok(Rows { some })
    }

    /// How many rows there are.
    pub fn len(&self) -> usize
        ensures { result ≡ length self.now }
    {
        self.as_slice().len()
    }

    /// The rows in their order.
    pub fn as_slice(&self) -> &[Row]
        ensures { result.now ≡ self.now }
    {
        match &self.some {
            Some(rows) => rows.get().as_slice(),
            None => &[],
        }
    }
}

impl PartialEq for Rows {
    ghost use Rattle.std.specs.Cmp.Lexicographic.{pointwise, lists_per};
    ghost use Rattle.sq_base.specs.contracts.row.RowPartialEq.TheImpl as row_eq;
    ghost use Rattle.sq_base.specs.contracts.row.RowPartialEq.TheImpl.Laws as row_laws;

    ghost eq = { pointwise row_eq.ghosts.eq };

    ghost laws = { lists_per row_laws.laws-law };

    fn eq(&self, other: &Rows) -> bool {
        self.as_slice() == other.as_slice()
    }
}

/// The same row.
pub fn copy_row(row: &Row) -> Result<Row, Refusal>
    ensures copy { IfOk result (λ copy. copy ≡ row.now) }
    ensures err { IfErr result (λ e. e ≡ Refusal.NoMemory) }
{
    Ok(Row {
        id: row.id,
        lineage: row.lineage,
        body: row.body.copy()?,
        serial: row.serial,
        slot: row.slot,
        enqueued: row.enqueued,
        visible_from: row.visible_from,
        receives: row.receives,
        last_receive: row.last_receive,
        origin: row.origin,
    })
}
