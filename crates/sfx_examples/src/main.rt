//! Plays the examples of a folder, scripts with their replies, and tells of each reply that differs.
#![tactic(auto)]

mod example;

use example::{difference, replayed};
use std::process::ExitCode;
use std::{env, fs, io};

fn main(rt: HostRuntime) -> ExitCode {
    match play_all(&rt) {
        Ok(true) => ExitCode::SUCCESS,
        Ok(false) => ExitCode::FAILURE,
        Err(error) => {
            let _told = eprintln!(rt; "{error}");
            ExitCode::FAILURE
        }
    }
}

/// Plays each example of the folder that the first word names. It says whether there is one, and each is as it
/// is played.
fn play_all(rt: &HostRuntime) -> io::Result<bool> {
    let Some(folder) = env::args(rt)?.nth(1) else {
        eprintln!(rt; "which folder?")?;
        return Ok(false);
    };
    let mut is_played = false;
    let mut is_right = true;
    for entry in fs::read_dir(rt, folder.as_str())? {
        let entry = entry?;
        if entry.file_name().ends_with(".sfx") {
            let example = fs::read_to_string(rt, entry.path())?;
            is_right &= play_one(rt, entry.file_name(), example.as_str())?;
            is_played = true;
        }
    }
    if !is_played {
        eprintln!(rt; "{folder} has no example")?;
    }
    Ok(is_played && is_right)
}

/// Plays one example, and tells where it differs.
fn play_one(rt: &HostRuntime, name: &str, example: &str) -> io::Result<bool> {
    let played = replayed(rt.alloc(), example)?;
    let Some(line) = difference(example, played.as_str()) else {
        return Ok(true);
    };
    let stands = example.lines().nth(line).unwrap_or("");
    let comes = played.lines().nth(line).unwrap_or("");
    eprintln!(rt;
        "{name}, line {}: {stands}\n  is played as: {comes}",
        line.saturating_add(1)
    )?;
    Ok(false)
}
