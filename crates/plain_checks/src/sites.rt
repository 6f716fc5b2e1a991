//! A site's two files, by the calls below `config` and `match`.
use crate::row_text::RowText;
use jk_io::MAX_INPUT_BYTES;
use site_mounts::{UriMap, read_map};
use site_workers::{Config, Lb, Named, Property, read_properties, read_workers};
use std::alloc::Global;

fn put_named(out: &mut RowText, named: Option<Named>) {
    match named {
        None => out.put(b"none"),
        Some(Named::Balancer(place)) => out.number(b"balancer ", u64::from(place)),
        Some(Named::Status(place)) => out.number(b"status ", u64::from(place)),
    }
}

fn put_mount(out: &mut RowText, map: &UriMap, path: &[u8]) {
    put_named(out, map.mount(path));
    let terms = map.terms(path);
    if terms.sticky_ignore {
        out.put(b" sticky_ignore");
    }
    out.number(b" disabled ", terms.disabled);
    out.number(b" stopped ", terms.stopped);
    if let Some(millis) = terms.reply_timeout {
        out.number(b" reply ", millis);
    }
}

fn mount_in(alloc: Global, config: &Config, map: &[u8], path: &[u8], out: &mut RowText) {
    if map.len() > MAX_INPUT_BYTES {
        return out.put(b"too long");
    }
    match read_map(alloc, map, config) {
        Ok(map) => put_mount(out, &map, path),
        Err(_) => out.put(b"the map is refused"),
    }
}

/// The worker of the path, and the terms of its rule.
pub fn tell_mount(alloc: Global, workers: &[u8], map: &[u8], path: &[u8], out: &mut RowText) {
    if workers.len() > MAX_INPUT_BYTES {
        return out.put(b"too long");
    }
    match read_workers(alloc, workers) {
        Ok(config) => mount_in(alloc, &config, map, path, out),
        Err(_) => out.put(b"the workers are refused"),
    }
}

fn put_secrets(out: &mut RowText, lb: &Lb) {
    for end in lb.ends.as_slice() {
        if let Some(secret) = &end.secret {
            out.put(b" secret ");
            out.put(secret.as_slice());
        }
    }
}

fn put_found(out: &mut RowText, config: &Config, name: &[u8]) {
    let named = config.find(name);
    put_named(out, named);
    let Some(Named::Balancer(place)) = named else {
        return;
    };
    if let Some(lb) = config.lbs.get(place as usize) {
        put_secrets(out, lb);
    }
}

/// The worker of a name, and its members' secrets.
pub fn tell_found(alloc: Global, workers: &[u8], name: &[u8], out: &mut RowText) {
    if workers.len() > MAX_INPUT_BYTES {
        return out.put(b"too long");
    }
    match read_workers(alloc, workers) {
        Ok(config) => put_found(out, &config, name),
        Err(_) => out.put(b"the workers are refused"),
    }
}

fn put_property(out: &mut RowText, property: &Property) {
    out.number(b"", u64::from(property.line));
    out.put(b" [");
    out.put(property.key.as_slice());
    out.put(b"] [");
    out.put(property.value.as_slice());
    out.put(b"]\n");
}

fn put_properties(out: &mut RowText, properties: &[Property]) {
    for property in properties {
        put_property(out, property);
    }
}

/// The properties of a text.
pub fn tell_properties(alloc: Global, text: &[u8], out: &mut RowText) {
    if text.len() > MAX_INPUT_BYTES {
        return out.put(b"too long");
    }
    match read_properties(alloc, text) {
        Ok(properties) => put_properties(out, properties.as_slice()),
        Err(_) => out.put(b"refused"),
    }
}
