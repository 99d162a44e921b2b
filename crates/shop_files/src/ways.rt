// The lines that `identify` tells of an image.

/// The words of a way to read an image in which the directory of a volume is damaged.
#[derive(Clone, Copy)]
pub struct BrokenWay<'a> {
    pub file_system: &'a str,
    pub order: &'a str,
}

/// The words of the file systems and of the orders.
const FILE_SYSTEMS: [&str; 2] = ["dos", "prodos"];

const ORDERS: [&str; 3] = ["dos", "prodos", "nibble"];

// The way that a line tells of, if a volume is damaged in it.
fn broken_in(line: &str) -> Option<BrokenWay<'_>> {
    let way = line.strip_suffix(" BROKEN")?;
    let (file_system, order) = way.split_once(' ')?;
    let is_way = FILE_SYSTEMS.iter().any(|word| *word == file_system)
        && ORDERS.iter().any(|word| *word == order);
    is_way.then_some(BrokenWay { file_system, order })
}

/// The first way in which a volume is damaged.
pub fn broken_way(told: &str) -> Option<BrokenWay<'_>> {
    for line in told.lines() {
        if let Some(way) = broken_in(line) {
            return Some(way);
        }
    }
    None
}

/// The order in the header of the container that is told of first, if it is one.
pub fn header_order(told: &str) -> Option<&str> {
    let (first, _) = told.split_once('\n')?;
    order_named(first, "2IMG")
}

// The third word of a line that begins with this one.
fn order_named<'a>(line: &'a str, front: &str) -> Option<&'a str> {
    let mut words = line.split(' ');
    if words.next()? != front {
        return None;
    }
    words.next()?;
    words.next()
}

/// Of a container that was identified, the order in its header and the one of the best way to read its image, where
/// they are not one.
pub fn orders_apart(told: &[u8]) -> Option<(&str, &str)> {
    let text = std::str::from_utf8(told).ok()?;
    let (first, rest) = text.split_once('\n')?;
    let header = order_named(first, "2IMG")?;
    for line in rest.split('\n') {
        if let Some(best) = order_named(line, "BEST") {
            return if best == header {
                None
            } else {
                Some((header, best))
            };
        }
    }
    None
}
