// Numbers of several bytes, big-endian. A value is two's complement.
ghost use Rattle.text.specs.Paged.{Room, Adds};
ghost use Rattle.writing.specs.Bytes.{word_bytes, value_bytes};

use text::page::Page;

pub fn put_word(page: &mut Page<'_>, k: u32)
    requires { Room 4 page.old }
    ensures { Adds (word_bytes k) 4 page.old page.new }
{
    page.put_bytes(&k.to_be_bytes());
}

pub fn put_value(page: &mut Page<'_>, v: i64)
    requires { Room 8 page.old }
    ensures { Adds (value_bytes v) 8 page.old page.new }
{
    page.put_bytes(&v.to_be_bytes());
}
