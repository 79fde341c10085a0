// Writing: numbers, lines and headers into a lent buffer, from a place on.
ghost use Rattle.std.specs.Prelude.{◌≡◌, [], ◌∷◌, ◌+◌, ◌≤◌, length};
ghost use Rattle.rules.specs.Drawing.{most_items};
ghost use Rattle.rules.specs.Program.{decimal, item, line, lines, column, operations_header, unplaced_count, value_lines, refused_line};
ghost use Rattle.rules.specs.Refusals.{number};
ghost use Rattle.text.specs.Writing.{HasRoom, Put, Wrote, operations};

use rules::Refusal;

// A lent buffer, and the place where the next byte goes.
#[derive(Drop)]
pub struct Writer<'a> {
    pub out: &'a mut [u8],
    pub at: usize,
}

impl<'a> Writer<'a> {
    // One byte.
    fn put_byte(&mut self, b: u8)
        requires { HasRoom (b ∷ []) self.old }
        ensures { Wrote (b ∷ []) self.old self.new }
    {
        self.out[self.at] = b;
        self.at += 1;
    }

    // Some bytes.
    fn put_bytes(&mut self, bs: &[u8])
        requires { HasRoom bs.now self.old }
        ensures { Wrote bs.now self.old self.new }
    {
        let end = self.at + bs.len();
        self.out[self.at..end].copy_from_slice(bs);
        self.at = end;
    }

    // The digits of n. It calls itself at most nine times.
    fn put_number(&mut self, n: u32)
        requires { HasRoom (decimal n) self.old }
        ensures { Wrote (decimal n) self.old self.new }
    {
        if 10 <= n {
            self.put_number(n / 10);
        }
        self.put_byte(b'0' + (n % 10) as u8);
    }

    // A number, and a byte behind it.
    fn put_item(&mut self, n: u32, b: u8)
        requires { HasRoom (item n b) self.old }
        ensures { Wrote (item n b) self.old self.new }
    {
        self.put_number(n);
        self.put_byte(b);
    }

    // An operation's line: its number, order and mark.
    fn put_line(&mut self, e: u32, order: u32, mark: u32)
        requires { HasRoom (line e order mark) self.old }
        ensures { Wrote (line e order mark) self.old self.new }
    {
        self.put_item(e, b' ');
        self.put_item(order, b' ');
        self.put_item(mark, b'\n');
    }

    // A line for each operation.
    fn put_lines(&mut self, orders: &[u32], marks: &[u32])
        requires room { HasRoom (lines 0 orders.now marks.now) self.old }
        requires few { (length orders.now ≤ most_items) × (length marks.now ≡ length orders.now) }
        ensures { Wrote (lines 0 orders.now marks.now) self.old self.new }
    {
        for (e, order) in orders.iter().enumerate() {
            self.put_line(e as u32, *order, marks[e]);
        }
    }

    // The operations' header: how many there are, and how many of them are unplaced.
    fn put_header(&mut self, m: u32, unplaced: u32)
        requires { HasRoom (operations_header m unplaced) self.old }
        ensures { Wrote (operations_header m unplaced) self.old self.new }
    {
        self.put_bytes(b"operations ");
        self.put_item(m, b' ');
        self.put_bytes(b"unplaced ");
        self.put_item(unplaced, b'\n');
    }

    // The operations' header, and a line for each.
    pub fn put_operations(&mut self, orders: &[u32], marks: &[u32])
        requires room { HasRoom (operations orders.now marks.now) self.old }
        requires few { (length orders.now ≤ most_items) × (length marks.now ≡ length orders.now) }
        ensures { Wrote (operations orders.now marks.now) self.old self.new }
    {
        let unplaced = count_unplaced(marks);
        self.put_header(orders.len() as u32, unplaced);
        self.put_lines(orders, marks);
    }

    // One value a line.
    fn put_column(&mut self, values: &[u32])
        requires { HasRoom (column values.now) self.old }
        ensures { Wrote (column values.now) self.old self.new }
    {
        for value in values {
            self.put_item(*value, b'\n');
        }
    }

    // A header with the count, and one value a line.
    pub fn put_values(&mut self, values: &[u32])
        requires room { HasRoom (value_lines values.now) self.old }
        requires few { length values.now ≤ most_items }
        ensures { Wrote (value_lines values.now) self.old self.new }
    {
        self.put_bytes(b"values ");
        self.put_item(values.len() as u32, b'\n');
        self.put_column(values);
    }

    // `refused` and the refusal's number.
    pub fn put_refused(&mut self, why: Refusal)
        requires { HasRoom (refused_line (number why)) self.old }
        ensures { Wrote (refused_line (number why)) self.old self.new }
    {
        self.put_bytes(b"refused ");
        self.put_item(why.into(), b'\n');
    }
}

// How many marks are 1.
fn count_unplaced(marks: &[u32]) -> u32
    requires { length marks.now ≤ most_items }
    ensures { result ≡ unplaced_count marks.now }
{
    marks.iter().filter(|mark| **mark == 1).count() as u32
}
