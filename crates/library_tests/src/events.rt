//! Tests of lists of events (`event_replay`): worked rows with literal values on both formats, random lists, and
//! refused memory.

mod again;
mod blocks;
mod memory;
mod random;
mod rows;
mod volumes;
