//! The flat design: one list of variables, nets and processes with typed expressions, and what it means.
#![tactic(auto)]

mod call_laws;
mod designs;
mod exits;
mod expressions;
mod laws;
mod orders;
mod progressions;
mod rule_laws;
mod run_laws;
mod statements;
mod witnesses;

pub use call_laws::{calls_are_bodies, sizes_unfold};
pub use designs::{Design, Func, Import, Net, Pin, Port, Proc, Source, Task, Var};
pub use exits::{exits_are_walks, exits_unfold, lengths_bound_walks, loops_are_told, loops_wait};
pub use expressions::{BinOp, Kind, Pick, TExpr, Target, UnOp};
pub use laws::{
    at_most_u_events, bodies_fit, bodies_run, events_are_listed, events_tell, every_edge_ends,
    every_order, every_stimulus_runs, functions_end, loops_count, processes_run, sizes_are_one,
    stacks_settle, stacks_stay_low, states_fit, values_fit, walks_in_place,
};
pub use orders::{Checked, NetOrder};
pub use progressions::{counted_loops_end, values_are_alike};
pub use rule_laws::first_breaks_are_one;
pub use run_laws::{choosers_agree, events_keep, has_one_run, nets_settle};
pub use statements::{Arm, Stmt};
pub use witnesses::designs_are_checked;
