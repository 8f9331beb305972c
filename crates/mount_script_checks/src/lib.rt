// Tests of scripts and replies, over the public calls of `mount_script`.
#![tactic(auto)]

#[cfg(test)]
mod scripts;
#[cfg(test)]
mod shown;
#[cfg(test)]
mod texts;
