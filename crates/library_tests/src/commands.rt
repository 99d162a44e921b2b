//! Tests of the libraries of jobs and words: the words of each command, lists of words for the program itself
//! (`shop_words`), replies and how they are told (`shop_replies`), commands from words to the text, readers and writers
//! that fail (`shop_commands`), what a survey tells of files (`image_survey`), volumes that are made (`new_volumes`),
//! and what is explained of a text (`explanations`). Each public call on its happy path, with literal values. What is
//! answered on worked volumes, `tests/end_to_end` tests on the program.

mod answer;
mod broken;
mod commands;
mod explained;
mod front;
mod replies;
mod survey;
mod volumes;
mod words;
