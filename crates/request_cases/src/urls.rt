// URLs that may be registered.

use case_lines::{push_part, told, told_quoted, told_truth, told_words, written};
use registered_url::{UrlNo, WebUrl, WebUrls, read_url};
use sso_base::{NoMemory, Text};
use std::alloc::Global;

fn refused(alloc: Global, why: &UrlNo) -> Result<String, NoMemory> {
    match why {
        UrlNo::BadUrl => told(alloc, "BadUrl"),
        UrlNo::NoMemory => Err(NoMemory),
    }
}

fn parts(alloc: Global, url: &WebUrl) -> Result<String, NoMemory> {
    let scheme = if url.secure { "https" } else { "http" };
    let host = url.host.as_str();
    let path = told_quoted(alloc, url.path.as_str())?;
    let query = url.query.as_ref().map_or("-", Text::as_str);
    Ok(format!(in alloc;
        "{scheme}, host {host}, port {}, path {path}, query {query}",
        url.port
    )?)
}

fn told_url(alloc: Global, answer: &Result<WebUrl, UrlNo>) -> Result<String, NoMemory> {
    match answer {
        Ok(url) => parts(alloc, url),
        Err(why) => refused(alloc, why),
    }
}

/// `url|TEXT`: the parsed URL, or why it is refused.
pub fn url(alloc: Global, text: &str) -> Result<String, NoMemory> {
    let text = written(alloc, text)?;
    let answer = read_url(alloc, text.as_str());
    told_url(alloc, &answer)
}

/// `same_server|URL|URL`: whether the two have the same scheme, host and port.
pub fn same_server(alloc: Global, one: &str, other: &str) -> Result<String, NoMemory> {
    let one = read_url(alloc, one);
    let other = read_url(alloc, other);
    match (&one, &other) {
        (Ok(one), Ok(other)) => told_truth(alloc, one.is_same_server(other)),
        (Err(why), _) | (_, Err(why)) => refused(alloc, why),
    }
}

fn told_names(alloc: Global, answer: &Result<WebUrl, UrlNo>) -> Result<String, NoMemory> {
    match answer {
        Ok(url) => told_words(alloc, &url.query_names(alloc)?),
        Err(why) => refused(alloc, why),
    }
}

/// `query_names|URL`: the names in its query.
pub fn query_names(alloc: Global, url: &str) -> Result<String, NoMemory> {
    let answer = read_url(alloc, url);
    told_names(alloc, &answer)
}

// A list of both.
fn both(alloc: Global, one: &str, other: &str) -> Result<WebUrls, UrlNo> {
    let mut urls = WebUrls::new(alloc);
    urls.push(read_url(alloc, one)?)?;
    urls.push(read_url(alloc, other)?)?;
    Ok(urls)
}

// The number of URLs, and their paths.
fn paths(alloc: Global, urls: &WebUrls) -> Result<String, NoMemory> {
    let mut text = urls.count().to_string(alloc)?;
    for place in 0..urls.count() {
        push_part(&mut text, " ", urls.at(place).path.as_str())?;
    }
    Ok(text)
}

fn told_urls(alloc: Global, answer: &Result<WebUrls, UrlNo>) -> Result<String, NoMemory> {
    match answer {
        Ok(urls) => paths(alloc, &urls.copy(alloc)?),
        Err(why) => refused(alloc, why),
    }
}

/// `urls|URL|URL`: the number of URLs in a copy of a list of both, and their paths.
pub fn urls(alloc: Global, one: &str, other: &str) -> Result<String, NoMemory> {
    let answer = both(alloc, one, other);
    told_urls(alloc, &answer)
}
