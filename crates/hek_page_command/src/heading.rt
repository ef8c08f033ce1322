//! What a page says of itself: its title, its number among lessons, and the pages before and after it.
use crate::comments::Comments;
use hek_report::Lines;
use hek_rules::NoMemory;
use std::alloc::Global;

/// The title, the number of the lesson and the addresses of the pages before and after this one.
#[derive(Clone, Copy)]
pub struct Heading<'a> {
    /// The name of the schedule's file, which gives the title if there is none: `-` for standard input.
    pub file: &'a str,
    pub title: Option<&'a str>,
    pub lesson: Option<u64>,
    pub previous: Option<&'a str>,
    pub next: Option<&'a str>,
    /// The text of the schedule, and the plays of its story as lines of JSON; none of them where a page tells no story.
    pub text: &'a str,
    pub plays: &'a [u8],
}

impl Heading<'_> {
    /// The title as given, or made of the file's name.
    pub fn title(&self, alloc: Global) -> Result<String, NoMemory> {
        match self.title {
            Some(title) => Ok(String::from_str(alloc, title)?),
            None if self.file == "-" => Ok(String::from_str(alloc, "A schedule")?),
            None => title_of(alloc, self.file),
        }
    }
}

/// Puts the title, what the comments say and ask of the schedule, the lesson, and the pages before and after.
pub(crate) fn put_heading(
    alloc: Global,
    heading: &Heading<'_>,
    comments: &Comments,
    out: &mut Lines,
) {
    match heading.title(alloc) {
        Ok(title) => out.put_text("title", title.as_str()),
        Err(_) => out.lack_memory(),
    }
    out.put_text("about", comments.about.as_str());
    out.put_text("question", comments.question.as_str());
    out.put_text("text", heading.text);
    out.put_maybe("lesson", heading.lesson);
    put_link(alloc, "previous", heading.previous, out);
    put_link(alloc, "next", heading.next, out);
}

/// Puts a page's address and its title, or null if there is no address.
fn put_link(alloc: Global, name: &str, address: Option<&str>, out: &mut Lines) {
    let Some(address) = address else {
        return out.put_null(name);
    };
    let Ok(title) = title_of(alloc, address) else {
        return out.lack_memory();
    };
    out.put_key(name);
    out.begin_array();
    out.write_text(address);
    out.write_text(title.as_str());
    out.end_array();
}

/// The title that a file's name gives: `Late reader` for `examples/late-reader.hek`.
fn title_of(alloc: Global, file: &str) -> Result<String, NoMemory> {
    let name = file.rsplit('/').next().unwrap_or(file);
    let (name, _) = name.rsplit_once('.').unwrap_or((name, ""));
    let mut title = String::new(alloc);
    for letter in name.chars() {
        let letter = if letter == '-' { ' ' } else { letter };
        title.push(if title.is_empty() {
            letter.to_ascii_uppercase()
        } else {
            letter
        })?;
    }
    Ok(title)
}
