// What is printed of a case.
use std::io;

// The refusal's number and the answer's word.
pub(crate) fn answer(rt: &impl Print, refusal: u32, word: u32) -> io::Result<()> {
    print!(rt; "{refusal} {word}")
}

// The words of a list, each behind a blank.
pub(crate) fn words(rt: &impl Print, list: &[u32]) -> io::Result<()> {
    for word in list {
        print!(rt; " {word}")?;
    }
    Ok(())
}

// How many words of the workspace are 0 at its front, and how many are as they were at its end; the line's end.
pub(crate) fn workspace(rt: &impl Print, ws: &[u32]) -> io::Result<()> {
    let zeros = ws.iter().take_while(|word| **word == 0).count();
    let kept = ws.iter().rev().take_while(|word| **word == 777).count();
    println!(rt; " {zeros} {kept}")
}
