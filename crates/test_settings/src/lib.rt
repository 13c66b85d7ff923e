//! What the settings of servers have in common. This stands here, and not in `service_host`, since a crate with tests is proved twice.
#![tactic(auto)]

#[cfg(test)]
mod settings;
