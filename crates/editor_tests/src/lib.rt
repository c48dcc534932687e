//! The promises of `line_editor` at work: tables of text in which each row is a line and what is
//! done to it. In `screen` those of `line_screen`; in `library` those of `keyline`.
#![tactic(auto)]

#[cfg(test)]
mod accepting;
#[cfg(test)]
mod calls;
#[cfg(test)]
mod completing;
#[cfg(test)]
mod counting;
#[cfg(test)]
mod desk;
#[cfg(test)]
mod faults;
#[cfg(test)]
mod inserting;
#[cfg(test)]
mod killing;
#[cfg(test)]
mod library;
#[cfg(test)]
mod moving;
#[cfg(test)]
mod remembering;
#[cfg(test)]
mod rewording;
#[cfg(test)]
mod screen;
#[cfg(test)]
mod yanking;
