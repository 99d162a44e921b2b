//! Tests of the libraries that plan and move parts: layouts (`vol_layout`), plans (`move_plan`) and certificates
//! (`ring_cert`); the check of a volume (`vol_check`); openings, the writes of a plan, sessions and the optimizer
//! (`vol_mover`). Worked rows with literal values, each public call on its happy path, what stands after each write,
//! refused memory, failing reads and writes, the greatest sizes, and plans beside an exhaustive search.

mod agendas;
mod certificates;
mod checks;
mod examples;
mod late_failures;
mod layouts;
mod memory;
mod openings;
mod optimizing;
mod plans;
mod search;
mod sessions;
mod shortest;
mod volumes;
