//! The page of `crash_html`: what could end its data is an escape there.
use crash_html::page;
use std::process::Abort;

const JSON: &str = "{\"path\":\"</script><!--&\u{2028}\u{2029}é\\u003c\"}";

// The same in a page, between its tags.
const DATA: &str =
    "id=\"crash\">{\"path\":\"\\u003c/script\\u003e\\u003c!--\\u0026\\u2028\\u2029é\\u003c\"}</script>\n<script>";

fn assert_page(rt: &impl Abort, page: &str) {
    assert!(rt; page.starts_with("<!DOCTYPE html>\n"));
    assert!(rt; page.contains(DATA));
    assert!(rt; page.ends_with("</script>\n</body>\n</html>\n"));
    assert!(rt; !page.contains(JSON));
}

#[test]
fn what_could_end_the_data_is_an_escape(rt: HostRuntime) {
    match page(rt.alloc(), JSON) {
        Ok(page) => assert_page(&rt, page.as_str()),
        Err(_) => panic!(rt; "no page"),
    }
}
