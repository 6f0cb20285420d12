//! What filters pass. Each answer is that of XPath 1.0, and libxml2 gives the same.

use node_notes::{Config, LinkConfig};
use path_filter::{
    Filter, FilterFault, FilterSet, LinkFault, LinkFilters, SetFault, check_filters,
};
use std::alloc::Global;
use std::process::Abort;
use std::test::Fail;
use voe_tree::{Tree, read_tree};
use voe_values::{EndName, Listing, NodeKind, Text};

const ONE_PARAM: &str =
    "<voe:VOEvent xmlns:voe=\"http://www.ivoa.net/xml/VOEvent/v2.0\" ivorn=\"ivo://a/k#1\" role=\"test\" version=\"2.0\"><What><Param name=\"x\" value=\"1\"/></What></voe:VOEvent>";

const TWO_PARAMS: &str =
    "<voe:VOEvent xmlns:voe=\"http://www.ivoa.net/xml/VOEvent/v2.0\" ivorn=\"ivo://a/k#1\" role=\"test\" version=\"2.0\"><What><Param name=\"x\" value=\"1\"/><Param name=\"y\" value=\"2\"/></What></voe:VOEvent>";

const NO_PARAM: &str =
    "<voe:VOEvent xmlns:voe=\"http://www.ivoa.net/xml/VOEvent/v2.0\" ivorn=\"ivo://a/k#1\" role=\"test\" version=\"2.0\"></voe:VOEvent>";

/// Texts at several depths, attributes, an element within one of the same name, and one in a namespace.
const NESTED: &str =
    "<a k='1' j=''><b k='2'><c>x<d>y</d>z</c></b><b k='3'><b k='4'/></b><p:b xmlns:p='u' k='5' p:k='6'>w</p:b><e> 1.0 </e></a>";

/// Strings that are all one, and some that differ.
const PAIRS: &str =
    "<r k='1'><p k='1'>t</p><p k='1'>t</p><q k='1' m='2'>t</q><s k='3'>u<e/></s><v><w>t</w></v></r>";

/// Elements that a condition within a path tells from others of their name.
const GUARDED: &str =
    "<r><a k='1'><b k='1'><c/></b><d/></a><a k='2'><b k='2'/><a k='3'><b k='3'><c><d/></c></b></a></a><x k='3'/><x k='1'/></r>";

/// Elements whose names are words of filters.
const WORDS: &str = "<and><or/><not/></and>";

pub fn tree_of(rt: &impl Abort, alloc: Global, document: &str) -> Tree {
    let bytes = document.as_bytes();
    assert!(rt; bytes.len() <= 1_048_576);
    match read_tree(alloc, bytes) {
        Ok(tree) => tree,
        Err(fault) => panic!(rt; "refused: {fault:?}"),
    }
}

/// Each filter passes the document, or doesn't, as its row says.
fn answers(rt: &impl Abort, alloc: Global, document: &str, rows: &[(&str, bool)]) {
    let tree = tree_of(rt, alloc, document);
    for (text, wanted) in rows {
        match Filter::read(alloc, text) {
            Ok(filter) => assert_eq!(rt; filter.passes(&tree), *wanted, "{text}"),
            Err(fault) => panic!(rt; "{text} is refused: {fault:?}"),
        }
    }
}

#[test]
fn packets_are_told_by_roles_and_params(rt: HostRuntime) {
    let alloc = rt.alloc();
    answers(
        &rt,
        alloc,
        TWO_PARAMS,
        &[
            ("//Param[@name!='x']", true),
            ("//Param[@name='SC_Lat']", false),
            ("/*[//Param/@name='y']", true),
            ("/*[local-name()='VOEvent' and @role='test']", true),
            ("/*[@role!='test']", false),
            ("//Param[@name='y' and @value='1']", false),
            ("//Param[@name='y'][@value='2']", true),
            // The root is in the namespace of VOEvent, and what it contains in none.
            ("//VOEvent", false),
            ("/*/What/Param", true),
        ],
    );
    answers(
        &rt,
        alloc,
        NO_PARAM,
        &[
            ("//a[not(@b)]", false),
            ("/*[not(//Param)]", true),
            ("//Param[@name!='x']", false),
        ],
    );
}

#[test]
fn paths_go_to_children_and_descendants(rt: HostRuntime) {
    let alloc = rt.alloc();
    answers(
        &rt,
        alloc,
        NESTED,
        &[
            ("/a/b/b", true),
            ("/b", false),
            ("a/e", true),
            ("/a/c", false),
            ("/*/*/*/*", true),
            ("/*/*/*/*/*", false),
            ("//b//b", true),
            ("//c//c", false),
            ("//a//b//d", true),
            ("//d//b", false),
            // Paths of conditions start at their element, unless they begin with a slash.
            ("//d[a]", false),
            ("//d[/a]", true),
            ("//e[//b/b]", true),
            ("//b[b//c]", false),
        ],
    );
}

#[test]
fn attributes_are_no_children(rt: HostRuntime) {
    let alloc = rt.alloc();
    answers(
        &rt,
        alloc,
        NESTED,
        &[
            ("/@k", false),
            ("/a/@k", true),
            ("/a/k", false),
            ("//@k", true),
            ("//d/@*", false),
            ("//c//@k", false),
            ("/a[@j]", true),
            ("/a[@j='']", true),
            ("/a[@j!='']", false),
            // One with a prefix is met by no name.
            ("//*[@k='6']", false),
            ("//*[@*='6']", true),
        ],
    );
}

#[test]
fn comparisons_ask_for_one_pair_of_strings(rt: HostRuntime) {
    let alloc = rt.alloc();
    answers(
        &rt,
        alloc,
        NESTED,
        &[
            ("/a[b/@k='3']", true),
            ("/a[b/@k='2' and b/@k!='2']", true),
            ("/a[not(b/@k='2')]", false),
            ("/a[@k!='1']", false),
            // Nothing is neither equal nor different.
            ("/a[@l!='1']", false),
            ("/a[@l='1']", false),
            ("/a[not(@l='1')]", true),
            // Paths on both sides.
            ("/a[@k=b/@k]", false),
            ("/a[@k!=b/@k]", true),
            ("//b[@k=b/@k]", false),
            ("/a[b/b/@k=//@k]", true),
            ("/a['4'=b/b/@k]", true),
        ],
    );
}

#[test]
fn strings_of_two_paths_differ_where_they_are_not_all_one(rt: HostRuntime) {
    let alloc = rt.alloc();
    answers(
        &rt,
        alloc,
        PAIRS,
        &[
            // All one on both sides.
            ("/r[p/@k!=q/@k]", false),
            ("/r[p!=q]", false),
            ("/r[v/w!=p]", false),
            ("/r[p!=p]", false),
            ("/r[s!=//s]", false),
            // The first ones agree, and a later one of either side doesn't.
            ("/r[p/@k!=q/@*]", true),
            ("/r[q/@*!=p/@k]", true),
            ("/r[q/@*!=q/@*]", true),
            // Nothing on one side, or on both.
            ("/r[p/@k!=x/@k]", false),
            ("/r[x/@k!=p/@k]", false),
            ("/r[q/@*!=x]", false),
            ("/r[x!=q/@*]", false),
            ("/r[x!=x]", false),
            ("/r[x!=local-name()]", false),
            ("/r[p/@k!=local-name()]", true),
            // One from the element, and one from the document.
            ("//p[@k!=//q/@k]", false),
            ("//q[@m!=/r/@k]", true),
            ("//s[//p/@k!=@k]", true),
            // Within the path of another comparison.
            ("/r[p[@k!=//q/@k]/@k=q/@k]", false),
            ("/r[s[@k!=//q/@k]!=p]", true),
        ],
    );
}

#[test]
fn conditions_within_compared_paths_choose_what_is_compared(rt: HostRuntime) {
    let alloc = rt.alloc();
    answers(
        &rt,
        alloc,
        GUARDED,
        &[
            ("/r[a[b/c]/@k=x/@k]", true),
            ("/r[a[b[not(c)]]/@k=x/@k]", false),
            ("/r[a[b[not(c)]]/@k!=x/@k]", true),
            ("/r[a//b[c]/@k=x/@k]", true),
            ("/r[a[d]//b[c]/@k!=x/@k]", true),
            ("/r[a[d]//b[c]/@k!=a[d]/@k]", false),
            ("/r[a[not(d)]//b[c[d]]/@k=x/@k]", true),
            // On each step its own.
            ("/r[a[a]/b[c]/@k=x/@k]", false),
            ("/r[a[d]/b[c]/@k=x/@k]", true),
            ("/r[a[b[c]][d]/@k=x/@k]", true),
            ("/r[a[b[c]][a]/@k=x/@k]", false),
            // From the document.
            ("/r[//a[b[c[d]]]/@k=x/@k]", true),
            ("/r[x[not(//a[b[c[x]]])]/@k=a[b]/@k]", true),
            ("/r[x[//a[b[c[d]]] and @k='1']/@k=a[d]/@k]", true),
            // Beside a local name.
            ("/r[local-name()=*[b[c]]/@k]", false),
            ("/r[local-name()!=*[b[c]]/@k]", true),
            // With comparisons within.
            ("/r[a[b/@k=@k]/@k!=a[b/c]/@k]", true),
            ("/r[a[b/@k!=@k]/@k!=a[b/c]/@k]", false),
            ("//a[b[c]/@k=a[b[c]]/@k]", false),
            ("//a[b/@k!=a[b[c]]/@k]", true),
        ],
    );
}

#[test]
fn paths_from_the_document_are_compared_alike_at_each_element(rt: HostRuntime) {
    let alloc = rt.alloc();
    answers(
        &rt,
        alloc,
        PAIRS,
        &[
            ("//e[//p/@k=//q/@k]", true),
            ("//e[//p/@k=//s/@k]", false),
            ("//e[//p/@k!=//s/@k]", true),
            ("//*[//p/@k!=//q/@k]", false),
            ("//e[not(//p=//v)]", false),
            ("//x[//p=//v]", false),
            ("//w[//p=//v and not(//p!=//v)]", true),
            ("//w[//p!=//v or //p/@k=//s/@k]", false),
            ("//e[/r!=//r]", false),
            ("/r[s[//p!=//s]/@k='3']", true),
            ("/r[p[//q/@k=//p/@k]/@k=q/@k]", true),
            // With a path from the element it is not the same at each.
            ("//p[@k=/r/@k]", true),
            ("//s[@k=/r/@k]", false),
            ("//p[//q/@m=@k]", false),
        ],
    );
}

#[test]
fn strings_are_all_the_text_within(rt: HostRuntime) {
    let alloc = rt.alloc();
    answers(
        &rt,
        alloc,
        NESTED,
        &[
            ("/a[b='xyz']", true),
            ("//c[d='y']", true),
            ("//c[d='xyz']", false),
            ("/a[e='1.0']", false),
            ("/a[e=' 1.0 ']", true),
            ("/*[//a='xyzw 1.0 ']", true),
            ("/a[b='']", true),
            ("//b[c=//b]", true),
            // A string alone holds where it is not empty.
            ("/a['x']", true),
            ("/a['']", false),
            ("/a['x'!='x']", false),
        ],
    );
}

#[test]
fn names_are_in_no_namespace(rt: HostRuntime) {
    let alloc = rt.alloc();
    answers(
        &rt,
        alloc,
        NESTED,
        &[
            ("//b[@k='5']", false),
            ("//*[@k='5']", true),
            ("//*[local-name()='b' and @k='5']", true),
            ("/a/*[local-name()='a']", false),
            ("//*[local-name()]", true),
            ("//*[local-name()!='b' and @k='5']", false),
        ],
    );
}

#[test]
fn conditions_are_joined_as_written(rt: HostRuntime) {
    let alloc = rt.alloc();
    answers(
        &rt,
        alloc,
        NESTED,
        &[
            // `and` binds closer.
            ("/a[@j or @k and @l]", true),
            ("/a[(@j or @k) and @l]", false),
            ("/a[@l and @j or @k]", true),
            ("/a[@l and (@j or @k)]", false),
            ("/a[not(@l) and @k]", true),
            ("/a[not(@l and @k)]", true),
            ("/a[not(@k)]", false),
            ("/a[not(not(b))]", true),
            ("//b[not(c) and not(b)]", true),
            ("//b[not(c or b)][@k!='4']", false),
            // Within one another, and one behind the other.
            ("/a[b[c[d='y']]]", true),
            ("/a[b[c[d='x']]]", false),
            ("//b[c][@k='3']", false),
        ],
    );
    answers(
        &rt,
        alloc,
        WORDS,
        &[
            ("/and[or and not]", true),
            ("/and[not(or)]", false),
            ("/and/not", true),
            ("/or", false),
        ],
    );
}

fn texts(rt: &impl Abort, alloc: Global, all: &[&str]) -> Result<Listing<Text>, Fail> {
    let mut list = Listing::new(alloc);
    for text in all {
        add(rt, &mut list, Text::of(alloc, text)?);
    }
    Ok(list)
}

fn add<T: Drop>(rt: &impl Abort, items: &mut Listing<T>, item: T) {
    if items.push(item).is_err() {
        panic!(rt; "no memory");
    }
}

/// The set of these texts.
fn set_of(rt: &impl Abort, alloc: Global, all: &[&str]) -> Result<FilterSet, Fail> {
    let all = texts(rt, alloc, all)?;
    match FilterSet::of(alloc, all.as_slice()) {
        Ok(set) => Ok(set),
        Err(fault) => panic!(rt; "refused: {fault:?}"),
    }
}

/// The set and its copy pass the document, or both don't.
fn is_passed(
    rt: &impl Abort,
    alloc: Global,
    set: &FilterSet,
    document: &str,
    wanted: bool,
) -> Result<(), Fail> {
    let tree = tree_of(rt, alloc, document);
    assert_eq!(rt; set.passes(&tree), wanted);
    let copy = set.copy()?;
    assert_eq!(rt; copy.passes(&tree), wanted);
    Ok(())
}

#[test]
fn a_set_passes_what_one_of_its_filters_passes(rt: HostRuntime) -> Result<(), Fail> {
    let alloc = rt.alloc();
    is_passed(&rt, alloc, &FilterSet::new(alloc), NO_PARAM, true)?;
    is_passed(&rt, alloc, &set_of(&rt, alloc, &[])?, NO_PARAM, true)?;
    let named = set_of(&rt, alloc, &["//Param[@name=\"x\"]"])?;
    is_passed(&rt, alloc, &named, ONE_PARAM, true)?;
    is_passed(&rt, alloc, &named, NO_PARAM, false)?;
    let either = set_of(&rt, alloc, &["//a", "//Param[@name='y']", "//b"])?;
    is_passed(&rt, alloc, &either, TWO_PARAMS, true)?;
    is_passed(&rt, alloc, &either, ONE_PARAM, false)?;
    is_passed(&rt, alloc, &either, NESTED, true)?;
    Ok(())
}

#[test]
fn a_refused_text_is_told_or_passes_nothing(rt: HostRuntime) -> Result<(), Fail> {
    let alloc = rt.alloc();
    let some = texts(&rt, alloc, &["//a[", "//Param"])?;
    let lenient = FilterSet::lenient(alloc, some.as_slice())?;
    is_passed(&rt, alloc, &lenient, ONE_PARAM, true)?;
    is_passed(&rt, alloc, &lenient, NO_PARAM, false)?;
    let alone = texts(&rt, alloc, &["//a["])?;
    let nothing = FilterSet::lenient(alloc, alone.as_slice())?;
    is_passed(&rt, alloc, &nothing, ONE_PARAM, false)?;
    let later = texts(&rt, alloc, &["//Param", "//a[", ""])?;
    match FilterSet::of(alloc, later.as_slice()) {
        Ok(_) => panic!(&rt; "read"),
        Err(fault) => assert!(&rt;
            fault
                == SetFault::Refused {
                    at: 1,
                    fault: FilterFault::Syntax { place: 4 }
                }
        ),
    }
    let mut many = Listing::new(alloc);
    for _ in 0..16 {
        add(&rt, &mut many, Text::of(alloc, "//a")?);
    }
    add(&rt, &mut many, Text::of(alloc, "//Param")?);
    match FilterSet::of(alloc, many.as_slice()) {
        Ok(_) => panic!(&rt; "read"),
        Err(fault) => assert!(&rt; fault == SetFault::TooMany),
    }
    let first = FilterSet::lenient(alloc, many.as_slice())?;
    is_passed(&rt, alloc, &first, ONE_PARAM, false)?;
    is_passed(&rt, alloc, &first, NESTED, true)?;
    Ok(())
}

#[test]
fn filters_are_written_and_copied(rt: HostRuntime) -> Result<(), Fail> {
    let alloc = rt.alloc();
    match Filter::read(alloc, "//Param[@name!='x']") {
        Ok(filter) => {
            let written = filter.write(alloc)?;
            assert_eq!(&rt; written.as_str(), "//Param[@name!=\"x\"]");
            let copy = filter.copy(alloc)?;
            let written = copy.write(alloc)?;
            assert_eq!(&rt; written.as_str(), "//Param[@name!=\"x\"]");
            Ok(())
        }
        Err(fault) => panic!(&rt; "refused: {fault:?}"),
    }
}

fn end_name(rt: &impl Abort, alloc: Global, text: &str) -> EndName {
    match EndName::read(alloc, text) {
        Ok(name) => name,
        Err(fault) => panic!(rt; "refused: {fault:?}"),
    }
}

/// A broker with a link without filters, and one with these.
fn broker(rt: &impl Abort, alloc: Global, filters: &[&str]) -> Result<Config, Fail> {
    let mut links = Listing::new(alloc);
    let open = LinkConfig {
        name: end_name(rt, alloc, "ivo://s/x"),
        filters: Listing::new(alloc),
    };
    add(rt, &mut links, open);
    let filtered = LinkConfig {
        name: end_name(rt, alloc, "ivo://s/y"),
        filters: texts(rt, alloc, filters)?,
    };
    add(rt, &mut links, filtered);
    Ok(Config {
        kind: NodeKind::Broker,
        name: end_name(rt, alloc, "ivo://b/x"),
        links,
    })
}

#[test]
fn links_pass_by_their_own_filters(rt: HostRuntime) -> Result<(), Fail> {
    let alloc = rt.alloc();
    let config = broker(&rt, alloc, &["//a", "//Param[@name='y']"])?;
    assert!(&rt; check_filters(alloc, &config).is_ok());
    let Ok(filters) = LinkFilters::read(alloc, config.links.as_slice()) else {
        panic!(&rt; "refused")
    };
    assert!(&rt; filters.sets.len() <= 65_536);
    let one = filters.passing(alloc, &tree_of(&rt, alloc, ONE_PARAM))?;
    assert!(&rt; one.as_slice() == [0].as_slice());
    let two = filters.passing(alloc, &tree_of(&rt, alloc, TWO_PARAMS))?;
    assert!(&rt; two.as_slice() == [0, 1].as_slice());
    let refused = broker(&rt, alloc, &["//a", "//a["])?;
    assert!(&rt; check_filters(alloc, &refused) == Err(LinkFault::Refused));
    Ok(())
}
