// What a call is made with: its table, and its choices.
use crate::table::Table;
use qptr::Choices;

#[derive(Clone, Copy)]
pub struct Setting<'a> {
    pub table: Table<'a>,
    pub choices: Choices,
}
