//! Tests of images: UF2 files, what they are linked with, and those that are generated from a number.
#![tactic(auto)]

#[cfg(test)]
mod damaged_tests;
#[cfg(test)]
mod link_tests;
pub mod little_endian;
#[cfg(test)]
mod numbered_tests;
#[cfg(test)]
mod uf2_file;
#[cfg(test)]
mod uf2_image_tests;
