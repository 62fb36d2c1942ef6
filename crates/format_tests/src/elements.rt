//! Texts of configurations, and the elements that are read from them.

use conf_text::{Element, read};
use std::alloc::{AllocError, Allocator, Global};
use std::fmt::Write;

// Appends `name[argument]@line{name=value@line,..}(children)`.
fn show<A: Allocator>(out: &mut String, element: &Element<A>) -> Result<(), AllocError> {
    let name = element.name.as_str();
    let argument = element.argument.as_str();
    let line = element.line;
    write!(out, "{name}[{argument}]@{line}{{")?;
    for pair in &element.pairs {
        let name = pair.name.as_str();
        let value = pair.value.as_str();
        let line = pair.line;
        write!(out, "{name}={value}@{line},")?;
    }
    out.push_str("}(")?;
    for child in &element.children {
        show(out, child)?;
    }
    out.push_str(")")
}

// The elements, or the fault as it is printed.
fn outcome(alloc: Global, text: &[u8]) -> Result<String, AllocError> {
    let mut out = String::new(alloc);
    match read(alloc, text) {
        Ok(elements) => {
            for element in &elements {
                show(&mut out, element)?;
            }
        }
        Err(e) => write!(&mut out, "{e}")?,
    }
    Ok(out)
}

// Lines alone, ends of lines, sections and parameters, and values in quotes; texts with faults are
// in examples/configurations/texts/.
static TEXTS: [(&str, &str); 30] = [
    ("", ""),
    ("\n\r\n \t \n# c\n  # <a>\n", ""),
    ("a 1", "[]@0{a=1@1,}()"),
    ("a", "[]@0{a=@1,}()"),
    ("a 1\r\nb 2\r\n", "[]@0{a=1@1,b=2@2,}()"),
    ("a 1\r\r\n", "[]@0{a=1\r@1,}()"),
    ("a 1\r", "[]@0{a=1\r@1,}()"),
    ("\ta \t 1 2 \t", "[]@0{a=1 2@1,}()"),
    ("@type forward", "[]@0{@type=forward@1,}()"),
    ("a # c", "[]@0{a=@1,}()"),
    ("a 1#2 # c # d", "[]@0{a=1#2@1,}()"),
    ("a 1\t#c", "[]@0{a=1@1,}()"),
    ("a 1\na 2", "[]@0{a=1@1,a=2@2,}()"),
    ("a x\"y # z\"", "[]@0{a=x\"y@1,}()"),
    ("<a>\n</a>", "a[]@1{}()"),
    (" <a b  c > # d \n</a> # e", "a[b  c]@1{}()"),
    ("<a \"b#c\">\n</a>", "a[\"b#c\"]@1{}()"),
    ("<match a>b>\n</match>", "match[a>b]@1{}()"),
    (
        "<a>\n<b>\n</b>\n<b x>\n</b>\n</a>\n<c>\n</c>",
        "a[]@1{}(b[]@2{}()b[x]@4{}())c[]@7{}()",
    ),
    (
        "<a>\nx 1\n<b>\ny 2\n</b>\nz 3\n</a>\nw 4",
        "[]@0{w=4@8,}()a[]@1{x=1@2,z=3@6,}(b[]@3{y=2@4,}())",
    ),
    ("a \"\"", "[]@0{a=@1,}()"),
    ("a \"x # y\"", "[]@0{a=x # y@1,}()"),
    ("a 'x # y' # z", "[]@0{a=x # y@1,}()"),
    ("a \" x \"\t", "[]@0{a= x @1,}()"),
    ("a \"\\\\ \\\" \\n \\r \\t\"", "[]@0{a=\\ \" \n \r \t@1,}()"),
    ("a '\\\\ \\' \"'", "[]@0{a=\\ ' \"@1,}()"),
    ("a \"'\"", "[]@0{a='@1,}()"),
    ("a \"é→\\tπ\"", "[]@0{a=é→\tπ@1,}()"),
    ("a \"#x {}\"", "[]@0{a=#x {}@1,}()"),
    ("a '#{x}'", "[]@0{a=#{x}@1,}()"),
];

// Whether this is the outcome of that text.
fn comes_to(alloc: Global, text: &str, wanted: &str) -> bool {
    match outcome(alloc, text.as_bytes()) {
        Ok(found) => found.as_str() == wanted,
        Err(AllocError) => false,
    }
}

fn are_outcomes(alloc: Global) -> bool {
    for (text, wanted) in &TEXTS {
        if !comes_to(alloc, text, wanted) {
            return false;
        }
    }
    true
}

#[test]
fn elements_of_texts(rt: HostRuntime) {
    assert!(rt; are_outcomes(rt.alloc()));
}

static EDGE: &str =
    "# edge relay\n<source>\n  @type forward\n  port 24224\n  bind 0.0.0.0\n  <security>\n    self_hostname edge.example\n    shared_key \"s3cr#t \\\"key\\\"\" # quoted\n  </security>\n</source>\n\n<match app.** sys.{cpu,mem}>\n  @type copy\n  <store>\n    @type file\n    path all\n  </store>\n</match>\n";

static EDGE_ELEMENTS: &str =
    "source[]@2{@type=forward@3,port=24224@4,bind=0.0.0.0@5,}(security[]@6{self_hostname=edge.example@7,shared_key=s3cr#t \"key\"@8,}())match[app.** sys.{cpu,mem}]@12{@type=copy@13,}(store[]@14{@type=file@15,path=all@16,}())";

#[test]
fn whole(rt: HostRuntime) {
    assert!(rt; comes_to(rt.alloc(), EDGE, EDGE_ELEMENTS));
}
