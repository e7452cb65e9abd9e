// A law of groups, which holds of the definition alone.
ghost use Rattle.std.specs.Prelude.{List};
ghost use Rattle.kq_run_groups.specs.Groups.{Grouping};
ghost use Rattle.kq_run_gather.specs.Bodies.{StandsFor};
ghost use Rattle.kq_run_scan.specs.kq_eval_pieces.Operators.{Row};
ghost use Rattle.kq_plan.specs.Plans.{Planned};
ghost use Rattle.kq_value.specs.Same.{Same};

/// Groups that stand for a view's body over some rows stand for it over the same rows in any other order.
pub fn groups_have_no_order()
    ensures { (body : Planned) (rows others : List Row) (g : Grouping) → Same rows others → StandsFor body rows g → StandsFor body others g }
{}
