//! Values that are made and called, line by line: the first word of a line names what it is of.

use crate::commands::command_line;
use crate::entry::{Target, entry_line};
use crate::ids::id_line;
use crate::members::members_line;
use crate::messages::message_line;
use crate::queue::queue_line;
use crate::replication::replication_line;
use crate::replies::reply_line;
use crate::table::table_line;
use test_cases::{Lines, Sheet};

impl Lines for Target {
    fn play(&mut self, name: &str, sheet: &mut Sheet<'_>) {
        match name {
            "entry" => entry_line(self, sheet),
            "id" => id_line(sheet),
            "members" => members_line(sheet),
            "message" => message_line(sheet),
            "replication" => replication_line(sheet),
            "reply" => reply_line(sheet),
            "table" => table_line(sheet),
            "command" => command_line(sheet),
            "queue" => queue_line(sheet),
            _ => sheet.fail("no such line"),
        }
    }
}
