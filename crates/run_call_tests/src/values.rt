//! Values that are read from JSON and spelled again.

use serde_json::Value as Json;
use std::alloc::Global;
use std::test::Fail;
use values_json::{from_json, push_json};

const SPELLED: [&str; 4] = [
    "{\"$fun\":[[0,null],[1,{\"$model\":\"a\"}]]}",
    "{\"$set\":[false,-1,\"a\\n\"]}",
    "[[],{\"a\":1,\"b\":[2]}]",
    "{\"$fun\":[[\"$b\",1],[\"a\",2]]}",
];

/// The JSON of the value that a text stands for.
fn again(alloc: Global, text: &str) -> Result<String, Fail> {
    let json = Json::from_str(alloc, text)?;
    let value = from_json(alloc, &json)?.ok_or("a value")?;
    let mut spelled = String::new(alloc);
    push_json(alloc, &mut spelled, &value)?;
    Ok(spelled)
}

#[test]
fn spelled_again(rt: HostRuntime) -> Result<(), Fail> {
    for text in SPELLED.iter() {
        let made = again(rt.alloc(), text)?;
        assert!(rt; made.as_str() == *text, "{text}");
    }
    Ok(())
}
