//! Tests of what stands late in the house: of `folder_adding` files that are saved one after the other, and the plans
//! of folders; of `shop_host` how files are read and a folder is gone through; of `shop_outputs` files that are
//! replaced on a host in memory, whose calls fail in turn, or which stops; of `shop_files` files of other kinds.

mod additions;
mod foreign_files;
mod host_reads;
mod output_lines;
mod plans;
mod stopped_files;
mod whole_files;
