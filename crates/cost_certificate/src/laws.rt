ghost use Rattle.std.specs.Prelude.{◌≡◌, List, Contains, length};
ghost use Rattle.grd_base.specs.declared.ids.ActionId.{ActionId};
ghost use Rattle.grd_base.specs.declared.ids.GoalId.{GoalId};
ghost use Rattle.strips_model.specs.Values.{PlainTask};
ghost use Rattle.strips_model.specs.Plans.{Reaches, set_of};
ghost use Rattle.cost_certificate.specs.Rows.{PlainRow};
ghost use Rattle.cost_certificate.specs.Tables.{IsValidTable, Refutes};
ghost use Rattle.cost_certificate.specs.Faults.{IsTableFault};
ghost use Rattle.cost_certificate.specs.declared.kinds.TableFault.{TableFault};

/// The rows of a valid table mean what they say: each sequence that leads from a row's state to the
/// goal without the removed actions is longer than its bound, and for `Never` there is none.
pub fn rows_refute()
    ensures { (t : PlainTask) (g : GoalId) (removed : List ActionId) (rows : List PlainRow) (row : PlainRow)
        → IsValidTable t g removed rows → Contains rows row
        → (p : List ActionId) → Reaches t g removed (set_of row.state) p → Refutes row.bound (length p) }
{}

/// A valid table has no first fault, and no table has two.
pub fn tables_fail_once()
    ensures valid { (t : PlainTask) (g : GoalId) (removed : List ActionId) (rows : List PlainRow)
        → IsValidTable t g removed rows → (fault : TableFault) → IsTableFault t g removed rows fault → ⊥ }
    ensures once { (t : PlainTask) (g : GoalId) (removed : List ActionId) (rows : List PlainRow) (fault other : TableFault)
        → IsTableFault t g removed rows fault → IsTableFault t g removed rows other → fault ≡ other }
{}
