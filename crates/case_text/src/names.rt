use kap_base::NoMemory;
use kap_io::Part;
use std::alloc::Global;

/// The file of a disk that has this name.
pub fn part_of(name: &str) -> Option<Part> {
    match name {
        "head" => Some(Part::Head),
        "left" => Some(Part::Left),
        "right" => Some(Part::Right),
        _ => None,
    }
}

/// How a file of a disk is called.
pub fn name_of(part: Part) -> &'static str {
    match part {
        Part::Head => "head",
        Part::Left => "left",
        Part::Right => "right",
    }
}

/// The numbers that stand in a text, with this character between two; none where one is no number.
pub fn numbers_in(alloc: Global, text: &str, between: char) -> Result<Option<Vec<u64>>, NoMemory> {
    let mut numbers = Vec::new(alloc);
    for word in text.split(between) {
        let Ok(number) = word.parse::<u64>() else {
            return Ok(None);
        };
        numbers.push(number)?;
    }
    Ok(Some(numbers))
}
